// Who plays which part, from the distances of a tested plan: chains over the nodes, none over the frame.
#![tactic(auto)]

ghost use Rattle.std.specs.Prelude.{◌≡◌, cond, ◌&&◌, eqb};
ghost use Rattle.laws.specs.Below.{first_below};
ghost use Rattle.gap.specs.Gap.{gap_of};
ghost use Rattle.gap.specs.Distances.{distances_of};
ghost use Rattle.shown.specs.Parts.{widest_from, widest_node, sender_in, silent_in, parts_with, parts_for};

use gap::{Distances, NodeDistance};
use plan::{Node, Slot, TestedPlan};
use rules::Rule;
use shown::Parts;

// The predecessor of a node's sending slot where its D is M; C, which is no slot, where it is not: so the definition says it, and
// the least of all is a slot.
fn predecessor_at(node: NodeDistance, gap: Slot, frame: Slot) -> Slot
    ensures { result.0 ≡ cond (eqb node.distance.0 gap.0) node.predecessor.0 frame.0 }
{
    if node.distance == gap {
        return node.predecessor;
    }
    frame
}

// p of rules 1 and 2.
fn widest_from(plan: TestedPlan, distances: Distances, gap: Slot) -> Slot
    requires distances_value { distances ≡ distances_of plan.plan }
    requires gap_value { gap.0 ≡ gap_of plan.plan }
    ensures { result.0 ≡ widest_from plan.plan }
{
    let plan = plan.plan;
    let least = distances.nodes[..plan.nodes.0 as usize]
        .iter()
        .fold(plan.frame.0, |least, node| {
            least.min(predecessor_at(*node, gap, plan.frame).0)
        });
    Slot(least)
}

// The node that sends in s of rules 1 and 2. (Here and below N would stand for none, as the definitions say; of a tested plan there
// is one, and a part is a node.)
fn widest_node(plan: TestedPlan, distances: Distances, gap: Slot, from: Slot) -> Node
    requires distances_value { distances ≡ distances_of plan.plan }
    requires gap_value { gap.0 ≡ gap_of plan.plan }
    requires from_value { from.0 ≡ widest_from plan.plan }
    ensures { result.0 ≡ widest_node plan.plan }
{
    let plan = plan.plan;
    let nodes = plan.nodes.0 as usize;
    let found = distances.nodes[..nodes]
        .iter()
        .position(|node| predecessor_at(*node, gap, plan.frame) == from);
    Node(found.unwrap_or(nodes) as u32)
}

// The node that sends in a slot.
fn sender_in(plan: TestedPlan, slot: Slot) -> Node
    ensures { result.0 ≡ sender_in plan.plan slot.0 }
{
    let nodes = plan.plan.nodes.0 as usize;
    let found = plan.plan.slots[..nodes].iter().position(|own| *own == slot);
    Node(found.unwrap_or(nodes) as u32)
}

// The lowest node that sends neither in p nor in s.
fn first_silent(plan: TestedPlan, p: Slot, s: Slot) -> Node
    ensures { result.0 ≡ first_below plan.plan.nodes.0 (λ i. silent_in plan.plan p.0 i && silent_in plan.plan s.0 i) }
{
    let nodes = plan.plan.nodes.0 as usize;
    let found = plan.plan.slots[..nodes]
        .iter()
        .position(|own| *own != p && *own != s);
    Node(found.unwrap_or(nodes) as u32)
}

fn parts_with(plan: TestedPlan, p: Slot, fast: Node) -> Parts
    ensures { result ≡ parts_with plan.plan p.0 fast.0 }
{
    Parts {
        p: p,
        sender: sender_in(plan, p),
        fast: fast,
    }
}

// The parts of the run shown for a rule. (Of what was found of the plan it asks for the distances and M alone, and for no verdict.)
#[tactic(auto, unfolding(shown::specs::Parts::parts_for))]
pub fn parts_tested(plan: TestedPlan, distances: Distances, gap: Slot, rule: Rule) -> Parts
    requires distances_value { distances ≡ distances_of plan.plan }
    requires gap_value { gap.0 ≡ gap_of plan.plan }
    ensures { result ≡ parts_for plan.plan rule }
{
    match rule {
        Rule::One => {
            let p = widest_from(plan, distances, gap);
            let fast = widest_node(plan, distances, gap, p);
            parts_with(plan, p, fast)
        }
        Rule::Two => {
            let p = widest_from(plan, distances, gap);
            let widest = widest_node(plan, distances, gap, p);
            let s = plan.plan.slots[widest.0 as usize];
            let fast = first_silent(plan, p, s);
            parts_with(plan, p, fast)
        }
        Rule::Three => {
            let fast = first_silent(plan, Slot(0), Slot(0));
            parts_with(plan, Slot(0), fast)
        }
    }
}
