// A step on a run: refused by the first of 1 to 16 that speaks against it, or done.
#![tactic(auto)]

ghost use Rattle.std.specs.Prelude.{◌≡◌, ltb, ◌+◌, None, IfOk};
ghost use Rattle.std.specs.Result.{result_err};
ghost use Rattle.laws.specs.Below.{any_below};
ghost use Rattle.laws.specs.Row.{first_given};
ghost use Rattle.run.specs.declared.Step.TheVariants.{Delay, TickOf, SendOf};
ghost use Rattle.run.specs.State.{node, is_about};
ghost use Rattle.run.specs.Moves.{moved};
ghost use Rattle.run.specs.Steps.{step_rows, step_refusal, step_tested, step_of};

use elsewhere::is_out_of_step;
use moves::{delayed, sent, ticked};
use plan::{Node, Plan, Refusal, TestedPlan, Time};
use run::{Run, Step, TestedRun};

// Some node is about to send.
fn some_about(run: TestedRun) -> bool
    ensures { result ≡ any_below run.plan.plan.nodes.0 (λ i. is_about (node run.run i).mode) }
{
    run.run.nodes[..run.plan.plan.nodes.0 as usize]
        .iter()
        .any(|node| node.mode.is_about_to_send())
}

// Some node would pass max.
fn some_past_max(run: TestedRun, d: Time) -> bool
    ensures { result ≡ any_below run.plan.plan.nodes.0 (λ i. ltb run.plan.plan.max.0 ((node run.run i).time.0 + d.0)) }
{
    let max = run.plan.plan.max;
    run.run.nodes[..run.plan.plan.nodes.0 as usize]
        .iter()
        .any(|node| (max.0 as u64) < node.time.0 as u64 + d.0 as u64)
}

// Which of 15 and 14 speaks first against a delay.
#[tactic(auto, unfolding(laws::specs::Row::first_given))]
fn delay_refusal(run: TestedRun, d: Time) -> Result<(), Refusal>
    ensures { result_err result ≡ first_given (step_rows run.plan.plan run.run (Delay d)) }
{
    if some_about(run) {
        return Err(Refusal::DelayBeforeSend);
    }
    if d.0 == 0 || some_past_max(run, d) {
        return Err(Refusal::DelayWrong);
    }
    Ok(())
}

// Which of 12 and 13 speaks first against a tick.
#[tactic(auto, unfolding(laws::specs::Row::first_given))]
fn tick_refusal(run: TestedRun, i: Node) -> Result<(), Refusal>
    ensures { result_err result ≡ first_given (step_rows run.plan.plan run.run (TickOf i)) }
{
    if run.plan.plan.nodes <= i {
        return Err(Refusal::NodeUnknown);
    }
    let node = run.run.nodes[i.0 as usize];
    if node.time < run.plan.plan.min {
        return Err(Refusal::TickTooEarly);
    }
    Ok(())
}

// Which of 12 and 16 speaks first against a send.
#[tactic(auto, unfolding(laws::specs::Row::first_given))]
fn send_refusal(run: TestedRun, i: Node) -> Result<(), Refusal>
    ensures { result_err result ≡ first_given (step_rows run.plan.plan run.run (SendOf i)) }
{
    if run.plan.plan.nodes <= i {
        return Err(Refusal::NodeUnknown);
    }
    if !run.run.nodes[i.0 as usize].mode.is_about_to_send() {
        return Err(Refusal::NotAboutToSend);
    }
    Ok(())
}

// The first refusal that speaks against a step: one from 11 on, since 10 let the run through.
#[tactic(auto, unfolding(laws::specs::Row::first_given, run::specs::Steps::step_refusal))]
fn step_refusal(run: TestedRun, step: Step) -> Result<(), Refusal>
    ensures { result_err result ≡ step_refusal run.plan.plan run.run step }
{
    if is_out_of_step(run.plan, run.run) {
        return Err(Refusal::OutOfStep);
    }
    match step {
        Step::Delay(d) => delay_refusal(run, d),
        Step::TickOf(i) => tick_refusal(run, i),
        Step::SendOf(i) => send_refusal(run, i),
    }
}

// The run after a legal step; it passes 10 again.
pub fn moved(run: TestedRun, step: Step) -> TestedRun
    requires { step_refusal run.plan.plan run.run step ≡ None }
    ensures plan { result.plan.plan ≡ run.plan.plan }
    ensures run { result.run ≡ moved run.plan.plan run.run step }
{
    let next = match step {
        Step::Delay(d) => delayed(run.plan, run.run, d),
        Step::TickOf(i) => ticked(run, i),
        Step::SendOf(i) => sent(run.plan, run.run, i),
    };
    TestedRun {
        plan: run.plan,
        run: next,
    }
}

// A step of a plan that passed 1 to 9 on a run that passed 10. The run after it passes 10 again, so step follows step with no test of either.
pub fn step_in_range(run: TestedRun, step: Step) -> Result<TestedRun, Refusal>
    ensures refusal { result_err result ≡ step_refusal run.plan.plan run.run step }
    ensures moved { IfOk result (λ next. (next.plan.plan ≡ run.plan.plan) × (next.run ≡ moved run.plan.plan run.run step)) }
{
    step_refusal(run, step)?;
    Ok(moved(run, step))
}

// A step of a plan that passed 1 to 9.
#[tactic(auto, unfolding(run::specs::Steps::step_tested, run::specs::Steps::step_refusal, laws::specs::Row::first_given))]
pub fn step_tested(plan: TestedPlan, run: Run, step: Step) -> Result<Run, Refusal>
    ensures { result ≡ step_tested plan.plan run step }
{
    let tested = run.tested(plan)?;
    let next = step_in_range(tested, step)?;
    Ok(next.run)
}

// A step of any plan on any run.
#[tactic(auto, unfolding(run::specs::Steps::step_of))]
pub fn step(plan: Plan, run: Run, step: Step) -> Result<Run, Refusal>
    ensures { result ≡ step_of plan run step }
{
    step_tested(plan.tested()?, run, step)
}
