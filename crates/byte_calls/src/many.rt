// Many steps by bytes, 5 each, one after the other.
ghost use Rattle.std.specs.Prelude.{◌≡◌, Ok, IfOk, ◌*◌, length};
ghost use Rattle.std.specs.Result.{result_err};
ghost use Rattle.byte_calls.specs.Many.{asked_of, after_asked, answers_bytes};
ghost use Rattle.byte_calls.specs.TestsAndWrites.{run_put, leaves, steps_asked, answers_put};

use crate::runs::run_tested;
use crate::spelling::step_spelt;
use plan::{Refusal, TestedPlan};
use plan_file::be32;
use run::TestedRun;
use run_bytes::write_run;
use steps::step_in_range;

// A step by its letter and number. The run after it is in range again.
#[tactic(auto, unfolding(crate::specs::Many::asked_of))]
fn step_asked(run: TestedRun, letter: u8, number: u32) -> Result<TestedRun, Refusal>
    ensures refusal { result_err result ≡ result_err (asked_of run.plan.plan run.run letter number) }
    ensures moved { IfOk result (λ next. (next.plan.plan ≡ run.plan.plan) × (Ok next.run ≡ asked_of run.plan.plan run.run letter number)) }
{
    step_in_range(run, step_spelt(letter, number)?)
}

// The run after all steps, and an answer for each.
fn steps_taken(run: TestedRun, steps: &[u8], answers: &mut [u8]) -> TestedRun
    requires { length steps.now ≡ 5 * length answers.old }
    ensures plan { result.plan.plan ≡ run.plan.plan }
    ensures value { result.run ≡ after_asked run.plan.plan steps.now (length answers.old) run.run }
    ensures answers_after { answers.new ≡ answers_bytes run.plan.plan steps.now (length answers.old) run.run answers.old }
{
    let mut state = run;
    for (k, answer) in answers.iter_mut().enumerate() {
        match step_asked(state, steps[5 * k], be32(steps, 5 * k + 1)) {
            Ok(next) => {
                *answer = 0;
                state = next;
            }
            Err(refusal) => *answer = refusal.number(),
        }
    }
    state
}

// Many steps on the run in bytes, of a plan that passed 1 to 9, with five bytes of steps for each answer.
#[tactic(auto, unfolding(crate::specs::TestsAndWrites::steps_asked))]
pub fn steps_on(
    plan: TestedPlan,
    run: &mut [u8; 291],
    steps: &[u8],
    answers: &mut [u8],
) -> Result<(), Refusal>
    requires { length steps.now ≡ 5 * length answers.old }
    ensures value { result_err result ≡ result_err (steps_asked plan.plan run.old steps.now (length answers.old)) }
    ensures run_after { run.new ≡ leaves (steps_asked plan.plan run.old steps.now (length answers.old)) (run_put plan.plan run.old) run.old }
    ensures answers_after { answers.new ≡ leaves (steps_asked plan.plan run.old steps.now (length answers.old)) (answers_put plan.plan run.old steps.now answers.old) answers.old }
{
    let before = run_tested(plan, run)?;
    let after = steps_taken(before, steps, answers);
    write_run(run, plan.plan.nodes.0 as usize, after.run);
    Ok(())
}
