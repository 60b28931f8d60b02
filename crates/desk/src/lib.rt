// The desk keeps one run and moves it on in place, step after step: a thin function over the step by value, and a caller whose own parameters are plain.
#![tactic(auto)]

ghost use Rattle.std.specs.Prelude.{◌≡◌};
ghost use Rattle.std.specs.Result.{result_err};
ghost use Rattle.run.specs.Steps.{step_of, run_left};

use plan::{Plan, Refusal};
use run::{Run, Step};

// A step on the run that is lent: where it is refused, the run stays as it was.
pub fn step_in_place(run: &mut Run, plan: Plan, step: Step) -> Result<(), Refusal>
    ensures { (result_err result ≡ result_err (step_of plan run.old step)) × (run.new ≡ run_left plan run.old step) }
{
    *run = steps::step(plan, *run, step)?;
    Ok(())
}

// A step at the desk: the run is kept here and moved on in place. (A pair, not a run in `Ok`: of a refused step too it says the run.)
pub fn step_at_desk(run: Run, plan: Plan, step: Step) -> (Result<(), Refusal>, Run)
    ensures { (result_err result.0 ≡ result_err (step_of plan run step)) × (result.1 ≡ run_left plan run step) }
{
    let mut desk = run;
    let answer = step_in_place(&mut desk, plan, step);
    (answer, desk)
}
