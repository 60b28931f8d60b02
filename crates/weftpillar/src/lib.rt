// The library for C and Rust: calls on lent bytes, each total, none keeping anything from one call to the next.
#![tactic(auto)]

ghost use Rattle.std.specs.Prelude.{◌≡◌};
ghost use Rattle.std.specs.Result.{result_err};
ghost use Rattle.weftpillar.specs.Calls.{
  judged,
  judge_leaves,
  begun,
  fresh_leaves,
  stepped,
  step_leaves,
  all_stepped,
  steps_leaves_run,
  steps_leaves_answers,
  apart,
  apart_leaves,
  reckoned,
  reckon_leaves,
  line_read,
  line_leaves,
  place_begun,
  fresh_place_leaves,
  next,
  next_leaves_place,
  next_leaves_step,
};

pub use answer_bytes::{Unanswered, answer_number};
use answer_bytes::{step_form, verdict_form, write_place};
use byte_calls::{
    apart_on, counts_differ, next_on, reckon_on, step_on, steps_on, taken_from, verdict_by,
};
use run::fresh;
use run_bytes::write_run;
use shown::fresh_place;
use step_lines::read_line;

// A plan file judged: the verdict, 51 bytes.
#[tactic(auto, unfolding(crate::specs::Calls::judged, crate::specs::Answers::answered))]
pub fn weftpillar_judge(plan: &[u8], verdict: &mut [u8]) -> Result<(), Unanswered>
    ensures value { result_err result ≡ result_err (judged plan.now verdict.old) }
    ensures verdict_after { verdict.new ≡ judge_leaves plan.now verdict.old }
{
    let verdict = verdict
        .as_mut_array::<51>()
        .ok_or(Unanswered::AnotherLength)?;
    let plan = taken_from(plan)?;
    *verdict = verdict_form(verdict_by(plan));
    Ok(())
}

// A fresh run, 291 bytes.
#[tactic(auto, unfolding(crate::specs::Calls::begun))]
pub fn weftpillar_fresh(run: &mut [u8]) -> Result<(), Unanswered>
    ensures value { result_err result ≡ result_err (begun run.old) }
    ensures run_after { run.new ≡ fresh_leaves run.old }
{
    let run = run.as_mut_array::<291>().ok_or(Unanswered::AnotherLength)?;
    write_run(run, 32, fresh());
    Ok(())
}

// One step, by its letter and number: the run moved on in place, or refused and as it was.
#[tactic(auto, unfolding(crate::specs::Calls::stepped, crate::specs::Answers::answered))]
pub fn weftpillar_step(
    plan: &[u8],
    run: &mut [u8],
    letter: u8,
    number: u32,
) -> Result<(), Unanswered>
    ensures value { result_err result ≡ result_err (stepped plan.now run.old letter number) }
    ensures run_after { run.new ≡ step_leaves plan.now run.old letter number }
{
    let run = run.as_mut_array::<291>().ok_or(Unanswered::AnotherLength)?;
    let plan = taken_from(plan)?;
    step_on(plan, run, letter, number)?;
    Ok(())
}

// Many steps, 5 bytes each, and a byte for the answer of each: the plan and the run are tested once, a refused step is passed over.
#[tactic(auto, unfolding(crate::specs::Calls::all_stepped, crate::specs::Answers::answered))]
pub fn weftpillar_steps(
    plan: &[u8],
    run: &mut [u8],
    steps: &[u8],
    answers: &mut [u8],
) -> Result<(), Unanswered>
    ensures value { result_err result ≡ result_err (all_stepped plan.now run.old steps.now answers.old) }
    ensures run_after { run.new ≡ steps_leaves_run plan.now run.old steps.now answers.old }
    ensures answers_after { answers.new ≡ steps_leaves_answers plan.now run.old steps.now answers.old }
{
    let run = run.as_mut_array::<291>().ok_or(Unanswered::AnotherLength)?;
    if counts_differ(steps.len(), answers.len()) {
        return Err(Unanswered::AnotherLength);
    }
    let plan = taken_from(plan)?;
    steps_on(plan, run, steps, answers)?;
    Ok(())
}

// Whether the run is out of step, and by which nodes: 9 bytes.
#[tactic(auto, unfolding(crate::specs::Calls::apart, crate::specs::Answers::answered))]
pub fn weftpillar_out_of_step(plan: &[u8], run: &[u8], answer: &mut [u8]) -> Result<(), Unanswered>
    ensures value { result_err result ≡ result_err (apart plan.now run.now answer.old) }
    ensures answer_after { answer.new ≡ apart_leaves plan.now run.now answer.old }
{
    let run = run.as_array::<291>().ok_or(Unanswered::AnotherLength)?;
    let answer = answer.as_mut_array::<9>().ok_or(Unanswered::AnotherLength)?;
    let plan = taken_from(plan)?;
    apart_on(plan, run, answer)?;
    Ok(())
}

// A node's reckoning of its ticks: 4 bytes.
#[tactic(auto, unfolding(crate::specs::Calls::reckoned, crate::specs::Answers::answered))]
pub fn weftpillar_reckon(
    plan: &[u8],
    run: &[u8],
    node: u32,
    ticks: &mut [u8],
) -> Result<(), Unanswered>
    ensures value { result_err result ≡ result_err (reckoned plan.now run.now node ticks.old) }
    ensures ticks_after { ticks.new ≡ reckon_leaves plan.now run.now node ticks.old }
{
    let run = run.as_array::<291>().ok_or(Unanswered::AnotherLength)?;
    let ticks = ticks.as_mut_array::<4>().ok_or(Unanswered::AnotherLength)?;
    let plan = taken_from(plan)?;
    reckon_on(plan, run, node, ticks)?;
    Ok(())
}

// A step line, its newline included, to a step: 5 bytes.
#[tactic(auto, unfolding(crate::specs::Calls::line_read))]
pub fn weftpillar_line(line: &[u8], step: &mut [u8]) -> Result<(), Unanswered>
    ensures value { result_err result ≡ result_err (line_read line.now step.old) }
    ensures step_after { step.new ≡ line_leaves line.now step.old }
{
    let step = step.as_mut_array::<5>().ok_or(Unanswered::AnotherLength)?;
    let asked = read_line(line)?;
    *step = step_form(asked);
    Ok(())
}

// Where a shown run begins, 292 bytes.
#[tactic(auto, unfolding(crate::specs::Calls::place_begun))]
pub fn weftpillar_fresh_place(place: &mut [u8]) -> Result<(), Unanswered>
    ensures value { result_err result ≡ result_err (place_begun place.old) }
    ensures place_after { place.new ≡ fresh_place_leaves place.old }
{
    let place = place
        .as_mut_array::<292>()
        .ok_or(Unanswered::AnotherLength)?;
    write_place(place, 32, fresh_place());
    Ok(())
}

// The next step of the shown run, 5 bytes, and the place moved on; 254 where the run is finished.
#[tactic(auto, unfolding(crate::specs::Calls::next, crate::specs::Answers::answered))]
pub fn weftpillar_next(plan: &[u8], place: &mut [u8], step: &mut [u8]) -> Result<(), Unanswered>
    ensures value { result_err result ≡ result_err (next plan.now place.old step.old) }
    ensures place_after { place.new ≡ next_leaves_place plan.now place.old step.old }
    ensures step_after { step.new ≡ next_leaves_step plan.now place.old step.old }
{
    let place = place
        .as_mut_array::<292>()
        .ok_or(Unanswered::AnotherLength)?;
    let step = step.as_mut_array::<5>().ok_or(Unanswered::AnotherLength)?;
    let plan = taken_from(plan)?;
    next_on(plan, place, step)
}
