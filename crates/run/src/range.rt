// Refusal 10: whether every number of a run lies in its range.
ghost use Rattle.std.specs.Prelude.{◌≡◌};
ghost use Rattle.laws.specs.Below.{all_below};
ghost use Rattle.run.specs.State.{node, node_in_range, last_in_range, in_range};

use crate::{NodeState, Run};
use plan::{Plan, Slot, TestedPlan};

fn node_in_range(plan: Plan, node: NodeState) -> bool
    ensures { result ≡ node_in_range plan node }
{
    node.clock < plan.ticks && node.slot < plan.frame && node.time <= plan.max
}

fn last_in_range(plan: Plan, last: Option<Slot>) -> bool
    ensures { result ≡ last_in_range plan last }
{
    match last {
        Some(slot) => slot < plan.frame,
        None => true,
    }
}

// Every node's numbers lie in their ranges.
fn nodes_in_range(plan: TestedPlan, run: Run) -> bool
    ensures { result ≡ all_below plan.plan.nodes.0 (λ i. node_in_range plan.plan (node run i)) }
{
    run.nodes[..plan.plan.nodes.0 as usize]
        .iter()
        .all(|node| node_in_range(plan.plan, *node))
}

// Every number of the run lies in its range; places from N on are not looked at.
#[tactic(auto, unfolding(crate::specs::State::in_range))]
pub fn in_range(plan: TestedPlan, run: Run) -> bool
    ensures { result ≡ in_range plan.plan run }
{
    nodes_in_range(plan, run) && last_in_range(plan.plan, run.last)
}
