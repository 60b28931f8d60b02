// The library for C and Rust: each call of `weftpillar` under its C name, with that call's clauses.
#![tactic(auto)]

ghost use Rattle.std.specs.Prelude.{◌≡◌};
ghost use Rattle.weftpillar.specs.Calls.{
  judge_answer,
  judge_leaves,
  fresh_answer,
  fresh_leaves,
  step_answer,
  step_leaves,
  steps_answer,
  steps_leaves_run,
  steps_leaves_answers,
  apart_answer,
  apart_leaves,
  reckon_answer,
  reckon_leaves,
  line_answer,
  line_leaves,
  fresh_place_answer,
  fresh_place_leaves,
  next_answer,
  next_leaves_place,
  next_leaves_step,
};

use weftpillar::answer_number;

// A plan file judged: the verdict, 51 bytes.
#[unsafe(no_mangle)]
pub extern "C" fn weftpillar_judge(plan: &[u8], verdict: &mut [u8]) -> u8
    ensures value { result ≡ judge_answer plan.now verdict.old }
    ensures verdict_after { verdict.new ≡ judge_leaves plan.now verdict.old }
{
    answer_number(&weftpillar::weftpillar_judge(plan, verdict))
}

// A fresh run, 291 bytes.
#[unsafe(no_mangle)]
pub extern "C" fn weftpillar_fresh(run: &mut [u8]) -> u8
    ensures value { result ≡ fresh_answer run.old }
    ensures run_after { run.new ≡ fresh_leaves run.old }
{
    answer_number(&weftpillar::weftpillar_fresh(run))
}

// One step, by its letter and number: the run moved on in place, or refused and as it was.
#[unsafe(no_mangle)]
pub extern "C" fn weftpillar_step(plan: &[u8], run: &mut [u8], letter: u8, number: u32) -> u8
    ensures value { result ≡ step_answer plan.now run.old letter number }
    ensures run_after { run.new ≡ step_leaves plan.now run.old letter number }
{
    answer_number(&weftpillar::weftpillar_step(plan, run, letter, number))
}

// Many steps, 5 bytes each, and a byte for the answer of each: the plan and the run are tested once, a refused step is passed over.
#[unsafe(no_mangle)]
pub extern "C" fn weftpillar_steps(
    plan: &[u8],
    run: &mut [u8],
    steps: &[u8],
    answers: &mut [u8],
) -> u8
    ensures value { result ≡ steps_answer plan.now run.old steps.now answers.old }
    ensures run_after { run.new ≡ steps_leaves_run plan.now run.old steps.now answers.old }
    ensures answers_after { answers.new ≡ steps_leaves_answers plan.now run.old steps.now answers.old }
{
    answer_number(&weftpillar::weftpillar_steps(plan, run, steps, answers))
}

// Whether the run is out of step, and by which nodes: 9 bytes.
#[unsafe(no_mangle)]
pub extern "C" fn weftpillar_out_of_step(plan: &[u8], run: &[u8], answer: &mut [u8]) -> u8
    ensures value { result ≡ apart_answer plan.now run.now answer.old }
    ensures answer_after { answer.new ≡ apart_leaves plan.now run.now answer.old }
{
    answer_number(&weftpillar::weftpillar_out_of_step(plan, run, answer))
}

// A node's reckoning of its ticks: 4 bytes.
#[unsafe(no_mangle)]
pub extern "C" fn weftpillar_reckon(plan: &[u8], run: &[u8], node: u32, ticks: &mut [u8]) -> u8
    ensures value { result ≡ reckon_answer plan.now run.now node ticks.old }
    ensures ticks_after { ticks.new ≡ reckon_leaves plan.now run.now node ticks.old }
{
    answer_number(&weftpillar::weftpillar_reckon(plan, run, node, ticks))
}

// A step line, its newline included, to a step: 5 bytes.
#[unsafe(no_mangle)]
pub extern "C" fn weftpillar_line(line: &[u8], step: &mut [u8]) -> u8
    ensures value { result ≡ line_answer line.now step.old }
    ensures step_after { step.new ≡ line_leaves line.now step.old }
{
    answer_number(&weftpillar::weftpillar_line(line, step))
}

// Where a shown run begins, 292 bytes.
#[unsafe(no_mangle)]
pub extern "C" fn weftpillar_fresh_place(place: &mut [u8]) -> u8
    ensures value { result ≡ fresh_place_answer place.old }
    ensures place_after { place.new ≡ fresh_place_leaves place.old }
{
    answer_number(&weftpillar::weftpillar_fresh_place(place))
}

// The next step of the shown run, 5 bytes, and the place moved on; 254 where the run is finished.
#[unsafe(no_mangle)]
pub extern "C" fn weftpillar_next(plan: &[u8], place: &mut [u8], step: &mut [u8]) -> u8
    ensures value { result ≡ next_answer plan.now place.old step.old }
    ensures place_after { place.new ≡ next_leaves_place plan.now place.old step.old }
    ensures step_after { step.new ≡ next_leaves_step plan.now place.old step.old }
{
    answer_number(&weftpillar::weftpillar_next(plan, place, step))
}
