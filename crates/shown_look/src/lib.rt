// One look round the nodes finds every candidate for the next step at once.
#![tactic(auto)]

ghost use Rattle.std.specs.Prelude.{◌≡◌, cond, ◌+◌, ◌<◌};
ghost use Rattle.plan.specs.Sending.{own};
ghost use Rattle.run.specs.declared.Run.{Run};
ghost use Rattle.run.specs.State.{node, is_about};
ghost use Rattle.run.specs.Moves.{guard_ends, mode_after};
ghost use Rattle.shown.specs.Shown.{due_time, goes_first, goes_second};
ghost use Rattle.shown.specs.declared.Place.{Place};
ghost use Rattle.shown_look.specs.Looking.{seen_from, looked_of};

use plan::{Node, Plan, Slot, TestedPlan, Time};
use run::{Mode, NodeState, Run};
use shown::{Mark, Parts};

// The lowest node about to send, the lowest due of those who go first, of those who go next, of all, and the lowest sending;
// N where there is none: with an option for each, a step of a shown run takes 1.7 times as long.
#[derive(Clone, Copy, Debug)]
pub struct Seen {
    pub about: Node,
    pub first: Node,
    pub second: Node,
    pub due: Node,
    pub sending: Node,
}

// The time since tick at which node i is due.
#[tactic(auto, unfolding(shown::specs::Shown::due_time))]
pub fn due_time(plan: Plan, parts: Parts, mark: Mark, i: Node) -> Time
    ensures { result.0 ≡ due_time plan parts mark i.0 }
{
    match mark {
        Mark::Before => plan.min,
        Mark::In => plan.min,
        Mark::After => { if i == parts.fast { plan.min } else { plan.max } }
    }
}

// A node is in slot w with clock g − 1.
pub fn guard_ends(plan: Plan, w: Slot, node: NodeState) -> bool
    ensures { result ≡ guard_ends plan w.0 node.clock.0 node.slot.0 }
{
    node.slot == w && node.clock.0 as u32 + 1 == plan.guard.0 as u32
}

// A tick now would make a node about to send that sends in slot `own` and has this state.
#[tactic(auto, unfolding(run::specs::Moves::mode_after))]
fn turns(plan: Plan, own: Slot, state: NodeState) -> bool
    ensures { result ≡ is_about (mode_after plan own.0 state.clock.0 state.slot.0 state.mode) }
{
    match state.mode {
        Mode::Waiting => guard_ends(plan, own, state),
        Mode::AboutToSend => true,
        Mode::Sending => false,
    }
}

// Node i, with this sending slot and state, is among those who tick first. (The slot is read beside the state: read in here, where it is
// needed, it makes the look round branch on each node.)
#[tactic(auto, unfolding(shown::specs::Shown::goes_first))]
fn goes_first(plan: Plan, parts: Parts, mark: Mark, i: Node, slot: Slot, state: NodeState) -> bool
    requires { slot.0 ≡ own plan i.0 }
    ensures { (run : Run) → node run i.0 ≡ state → result ≡ goes_first plan parts run mark i.0 }
{
    match mark {
        Mark::Before => !turns(plan, slot, state),
        Mark::In => i != parts.fast && i != parts.sender,
        Mark::After => i == parts.fast,
    }
}

// Node i is among those who tick next.
#[tactic(auto, unfolding(shown::specs::Shown::goes_second))]
fn goes_second(parts: Parts, mark: Mark, i: Node) -> bool
    ensures { result ≡ goes_second parts mark i.0 }
{
    match mark {
        Mark::Before => true,
        Mark::In => i != parts.fast,
        Mark::After => true,
    }
}

// Node i if it passes, or the lowest that passed of those after it.
fn lower(passes: bool, i: Node, after: Node) -> Node
    ensures { result ≡ cond passes i after }
{
    if passes { i } else { after }
}

// What was seen of the nodes after i, with node i, which has this sending slot and state.
#[tactic(auto, unfolding(crate::specs::Looking::seen_from))]
fn seen_with(
    plan: Plan,
    parts: Parts,
    mark: Mark,
    i: Node,
    slot: Slot,
    state: NodeState,
    after: Seen,
) -> Seen
    requires slot_value { slot.0 ≡ own plan i.0 }
    requires i_lt_nodes { i.0 < plan.nodes.0 }
    ensures { (q : Place) → q.mark ≡ mark → node q.run i.0 ≡ state → after ≡ seen_from plan parts q (i.0 + 1) → result ≡ seen_from plan parts q i.0 }
{
    let about = state.mode.is_about_to_send();
    // by number: with times compared as such the proof didn't close
    let due = state.time.0 == due_time(plan, parts, mark, i).0;
    // `&` and not `&&`: a look round that branches on each node makes a step take 1.4 times as long
    let first = due & goes_first(plan, parts, mark, i, slot, state);
    let second = due & goes_second(parts, mark, i);
    let sending = state.mode.is_sending();
    Seen {
        about: lower(about, i, after.about),
        first: lower(first, i, after.first),
        second: lower(second, i, after.second),
        due: lower(due, i, after.due),
        sending: lower(sending, i, after.sending),
    }
}

// Every node looked at, the highest first, in this run with this mark; none where a time is past due.
fn look_with(plan: TestedPlan, parts: Parts, run: &Run, mark: Mark) -> Option<Seen>
    ensures { result ≡ looked_of plan.plan parts (record { run = run.now; mark = mark }) }
{
    let plan = plan.plan;
    let mut seen = Seen {
        about: plan.nodes,
        first: plan.nodes,
        second: plan.nodes,
        due: plan.nodes,
        sending: plan.nodes,
    };
    // By number, the highest first: the number is what is kept.
    for i in (0..plan.nodes.0).rev() {
        let slot = plan.slots[i as usize];
        let state = run.nodes[i as usize];
        let due = due_time(plan, parts, mark, Node(i));
        if due < state.time {
            return None;
        }
        seen = seen_with(plan, parts, mark, Node(i), slot, state, seen);
    }
    Some(seen)
}

// The same, mark by mark: so the mark is asked once and not for each node, without which a step of a shown run takes a third longer.
pub fn look_round(plan: TestedPlan, parts: Parts, run: &Run, mark: Mark) -> Option<Seen>
    ensures { result ≡ looked_of plan.plan parts (record { run = run.now; mark = mark }) }
{
    match mark {
        Mark::Before => look_with(plan, parts, run, Mark::Before),
        Mark::In => look_with(plan, parts, run, Mark::In),
        Mark::After => look_with(plan, parts, run, Mark::After),
    }
}
