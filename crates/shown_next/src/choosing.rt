// The next step of a shown run, from what a look round the nodes has found, and the mark after it.
ghost use Rattle.std.specs.Prelude.{◌≡◌};
ghost use Rattle.run.specs.State.{node};
ghost use Rattle.run.specs.declared.Run.{Run};
ghost use Rattle.shown.specs.Shown.{time_to_due, next_step, pivot_next, mark_after, place_of};
ghost use Rattle.shown_look.specs.Looking.{seen_from};

use plan::{Node, Plan, Time};
use run::{Mode, NodeState, Step};
use shown::{Mark, Parts, Showing};
use shown_look::{Seen, due_time, guard_ends};

// The time to the first due moment.
fn time_to_due(showing: Showing) -> Time
    ensures { result.0 ≡ time_to_due showing.run.plan.plan showing.parts (place_of showing) }
{
    let plan = showing.run.plan.plan;
    let nodes = &showing.run.run.nodes;
    Time((0..plan.nodes.0).fold(plan.max.0, |least, i| {
        let due = due_time(plan, showing.parts, showing.mark, Node(i));
        least.min(due.0.saturating_sub(nodes[i as usize].time.0))
    }))
}

// A node about to send sends; else a due node ticks; else a delay to the first due moment.
pub fn next_step(showing: Showing, seen: Seen) -> Step
    requires { seen ≡ seen_from showing.run.plan.plan showing.parts (place_of showing) 0 }
    ensures { result ≡ next_step showing.run.plan.plan showing.parts (place_of showing) }
{
    // By number: as `seen.about < nodes` the later returns' proofs didn't close.
    let nodes = showing.run.plan.plan.nodes.0;
    if seen.about.0 < nodes {
        return Step::SendOf(seen.about);
    }
    if seen.first.0 < nodes {
        return Step::TickOf(seen.first);
    }
    if seen.second.0 < nodes {
        return Step::TickOf(seen.second);
    }
    if seen.due.0 < nodes {
        return Step::TickOf(seen.due);
    }
    Step::Delay(time_to_due(showing))
}

// The sender of p, of which this is the state, waits in p with clock g − 1.
fn pivot_next(plan: Plan, parts: Parts, state: NodeState) -> bool
    ensures { (run : Run) → node run parts.sender.0 ≡ state → result ≡ pivot_next plan parts run }
{
    state.mode == Mode::Waiting && guard_ends(plan, parts.p, state)
}

// The mark after a step.
#[tactic(auto, unfolding(shown::specs::Shown::mark_after))]
pub fn mark_after(showing: Showing, step: Step) -> Mark
    ensures { result ≡ mark_after showing.run.plan.plan showing.parts showing.run.run showing.mark step }
{
    let plan = showing.run.plan.plan;
    let parts = showing.parts;
    let sender = showing.run.run.nodes[parts.sender.0 as usize];
    match (showing.mark, step) {
        (Mark::Before, Step::Delay(_)) if pivot_next(plan, parts, sender) => Mark::In,
        (Mark::In, Step::TickOf(i)) if i == parts.fast => Mark::After,
        (mark, _) => mark,
    }
}
