// The gap of a plan: for each node the predecessor of its sending slot and the distance to it, and M, the largest.
#![tactic(auto)]

ghost use Rattle.std.specs.Prelude.{◌≡◌, ◌≤◌, ◌<◌, false, length, replicate};
ghost use Rattle.plan.specs.Sending.{sends};
ghost use Rattle.gap.specs.Gap.{slot_before, nearest, gap_of};
ghost use Rattle.gap.specs.Distances.{Occupied, taken, Free, node_distance, distances_of};

use plan::{Slot, TestedPlan};

// The predecessor of a node's sending slot, and D, the slots from it.
#[derive(Clone, Copy, Debug)]
pub struct NodeDistance {
    pub predecessor: Slot,
    pub distance: Slot,
}

// What the frame is like for each node; places from N on are 0.
#[derive(Clone, Copy, Debug)]
pub struct Distances {
    pub nodes: [NodeDistance; 32],
}

// The table of occupied slots: whether some node sends in each. (The table is lent, with no slot taken: handed out, it lies on the stack twice more.)
fn occupied(plan: TestedPlan, table: &mut [bool; 4096])
    requires { table.old ≡ replicate 4096 false }
    ensures { Occupied (sends plan.plan) table.new }
{
    for own in &plan.plan.slots[..plan.plan.nodes.0 as usize] {
        table[own.0 as usize] = true;
    }
}

// The slot before, backwards round the frame.
fn slot_before(frame: Slot, slot: Slot) -> Slot
    requires { (slot.0 < frame.0) × (frame.0 ≤ 4096) }
    ensures { (result.0 ≡ slot_before frame.0 slot.0) × (result.0 < frame.0) }
{
    if slot.0 == 0 {
        return Slot(frame.0 - 1);
    }
    Slot(slot.0 - 1)
}

// The slots that one row may have from a slot backwards: at most 64, at most those left, and none past slot 0.
fn row(left: Slot, slot: Slot) -> Slot
    ensures { (result.0 ≤ left.0) × (result.0 ≤ slot.0) }
{
    Slot(left.0.min(slot.0).min(64))
}

// How many slots in a row are free, from a slot backwards, of so many at most.
fn free_before(table: &[bool], most: Slot, slot: Slot) -> Slot
    requires { (most.0 ≤ slot.0) × (slot.0 < length table.now) }
    ensures { (result.0 ≤ most.0) × (Free table.now slot.0 result.0) }
{
    // Tried as `find` over these numbers: that none before the found one is taken stayed open.
    for count in 0..most.0 {
        if table[(slot.0 - count) as usize] {
            return Slot(count);
        }
    }
    most
}

// The nearest occupied slot at a slot or before it, a row of free slots at a time; the number of slots left in the frame falls.
fn nearest_taken(table: &[bool], frame: Slot, left: Slot, slot: Slot) -> Slot
    requires { (slot.0 < frame.0) × (frame.0 ≤ 4096) × (4096 ≤ length table.now) }
    ensures { (result.0 ≡ nearest (taken table.now) frame.0 left.0 slot.0) × (result.0 < frame.0) }
{
    if left.0 == 0 {
        return slot;
    }
    if table[slot.0 as usize] {
        return slot;
    }
    let before = slot_before(frame, slot);
    let most = row(Slot(left.0 - 1), before);
    let free = free_before(table, most, before);
    nearest_taken(
        table,
        frame,
        Slot(left.0 - 1 - free.0),
        Slot(before.0 - free.0),
    )
}

fn node_distance(plan: TestedPlan, table: &[bool], slot: Slot) -> NodeDistance
    requires { (Occupied (sends plan.plan) table.now) × (slot.0 < plan.plan.frame.0) }
    ensures { result ≡ node_distance plan.plan slot.0 }
{
    let frame = plan.plan.frame;
    let before = slot_before(frame, slot);
    let predecessor = nearest_taken(table, frame, Slot(frame.0 - 1), before);
    NodeDistance {
        predecessor: predecessor,
        distance: Slot((slot.0 + frame.0 - predecessor.0) % frame.0),
    }
}

// Every node's predecessor and D: one walk round the frame over the table of occupied slots.
pub fn distances_tested(plan: TestedPlan) -> Distances
    ensures { result ≡ distances_of plan.plan }
{
    let mut table = [false; 4096];
    occupied(plan, &mut table);
    let mut nodes = [NodeDistance {
        predecessor: Slot(0),
        distance: Slot(0),
    }; 32];
    let own = &plan.plan.slots[..plan.plan.nodes.0 as usize];
    // By its place. Tried as `zip` with the places written to: what they hold already stayed open in the proof.
    for (i, slot) in own.iter().enumerate() {
        nodes[i] = node_distance(plan, &table, *slot);
    }
    Distances { nodes: nodes }
}

// M, from the distances of a tested plan.
pub fn gap_tested(plan: TestedPlan, distances: Distances) -> Slot
    requires { distances ≡ distances_of plan.plan }
    ensures { result.0 ≡ gap_of plan.plan }
{
    let nodes = &distances.nodes[..plan.plan.nodes.0 as usize];
    Slot(
        nodes
            .iter()
            .fold(0u16, |widest, node| widest.max(node.distance.0)),
    )
}
