// A node's reckoning of its ticks: refusals 10, 12 and 17, and the ticks.
#![tactic(auto)]

ghost use Rattle.std.specs.Prelude.{◌≡◌, true, false, ◌<◌};
ghost use Rattle.std.specs.Result.{result_err};
ghost use Rattle.run.specs.State.{node_in_range, last_in_range};
ghost use Rattle.run.specs.Reckoning.{ticks_from, reckoning, below_zero, reckoning_refusal, reckoned_tested, reckoned_of};

use plan::{Node, Plan, Refusal, Slot, TestedPlan};
use run::{NodeState, Run, Ticks};

// The last message's slot, nothing pending, clock below g.
#[tactic(auto, unfolding(run::specs::Reckoning::below_zero))]
fn below_zero(plan: Plan, last: Option<Slot>, node: NodeState) -> bool
    ensures { result ≡ below_zero plan last node }
{
    match last {
        Some(slot) => node.slot == slot && !node.pending && node.clock < plan.guard,
        None => false,
    }
}

// The ticks since the beginning of slot p: ((slot − p) modulo C)·k0 + clock.
#[tactic(auto, unfolding(laws::specs::Ring::distance))]
fn ticks_from(plan: TestedPlan, p: Slot, node: NodeState) -> u32
    requires node_value { node_in_range plan.plan node ≡ true }
    requires p_lt_frame { p.0 < plan.plan.frame.0 }
    ensures { result ≡ ticks_from plan.plan p.0 node.clock.0 node.slot.0 }
{
    let plan = plan.plan;
    let slots = (node.slot.0 + plan.frame.0 - p.0) % plan.frame.0;
    slots as u32 * plan.ticks.0 as u32 + node.clock.0 as u32
}

// The clock, if no message was sent; 0 if one is pending; otherwise the ticks since the last message's slot began, less g.
#[tactic(auto, unfolding(run::specs::Reckoning::reckoning))]
fn ticks_reckoned(plan: TestedPlan, last: Option<Slot>, node: NodeState) -> Ticks
    requires node_value { node_in_range plan.plan node ≡ true }
    requires last_value { last_in_range plan.plan last ≡ true }
    requires not_below_zero { below_zero plan.plan last node ≡ false }
    ensures { result.0 ≡ reckoning plan.plan last node }
{
    match last {
        Some(slot) => {
            if node.pending {
                return Ticks(0);
            }
            Ticks(ticks_from(plan, slot, node) - plan.plan.guard.0 as u32)
        }
        None => Ticks(node.clock.0 as u32),
    }
}

// Which of 10, 12 and 17 speaks first against a reckoning.
#[tactic(auto, unfolding(run::specs::Reckoning::reckoning_refusal, laws::specs::Row::first_given))]
fn reckoning_refusal(plan: TestedPlan, run: Run, i: Node) -> Result<(), Refusal>
    ensures { result_err result ≡ reckoning_refusal plan.plan run i.0 }
{
    run.tested(plan)?;
    if plan.plan.nodes <= i {
        return Err(Refusal::NodeUnknown);
    }
    if below_zero(plan.plan, run.last, run.nodes[i.0 as usize]) {
        return Err(Refusal::ReckoningBelow0);
    }
    Ok(())
}

// The reckoning of a plan that passed 1 to 9.
#[tactic(auto, unfolding(run::specs::Reckoning::reckoned_tested))]
pub fn reckon_tested(plan: TestedPlan, run: Run, i: Node) -> Result<Ticks, Refusal>
    ensures { result ≡ reckoned_tested plan.plan run i.0 }
{
    reckoning_refusal(plan, run, i)?;
    Ok(ticks_reckoned(plan, run.last, run.nodes[i.0 as usize]))
}

// A node's reckoning, of any plan on any run.
#[tactic(auto, unfolding(run::specs::Reckoning::reckoned_of))]
pub fn reckon(plan: Plan, run: Run, node: Node) -> Result<Ticks, Refusal>
    ensures { result ≡ reckoned_of plan run node.0 }
{
    reckon_tested(plan.tested()?, run, node)
}
