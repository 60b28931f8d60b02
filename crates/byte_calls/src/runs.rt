// Calls on a run in bytes, of a plan that passed 1 to 9.
ghost use Rattle.std.specs.Prelude.{◌≡◌, Ok, IfOk};
ghost use Rattle.std.specs.Result.{result_err};
ghost use Rattle.answer_bytes.specs.Forms.{apart_bytes, ticks_bytes};
ghost use Rattle.byte_calls.specs.TestsAndWrites.{run_put, run_spelt, run_inside, leaves, step_asked, apart_asked, ticks_asked};

use crate::spelling::step_spelt;
use answer_bytes::{apart_form, ticks_form};
use elsewhere::apart_tested;
use plan::{Node, Refusal, TestedPlan};
use reckoning::reckon_tested;
use run::{Run, TestedRun};
use run_bytes::{read_run, spells_no_run, write_run};
use steps::step_tested;

// The run in bytes; refusal 10 where they spell none.
#[tactic(auto, unfolding(crate::specs::TestsAndWrites::run_spelt))]
fn run_spelt(plan: TestedPlan, run: &[u8; 291]) -> Result<Run, Refusal>
    ensures { result ≡ run_spelt plan.plan run.now }
{
    let nodes = plan.plan.nodes.0 as usize;
    if spells_no_run(run, nodes) {
        return Err(Refusal::RunOutside);
    }
    Ok(read_run(run, nodes))
}

// The run in bytes; refusal 10 where they spell none, or one with a number outside its range.
pub fn run_tested(plan: TestedPlan, run: &[u8; 291]) -> Result<TestedRun, Refusal>
    ensures refusal { result_err result ≡ result_err (run_inside plan.plan run.now) }
    ensures run { IfOk result (λ tested. (tested.plan.plan ≡ plan.plan) × (Ok tested.run ≡ run_inside plan.plan run.now)) }
{
    run_spelt(plan, run)?.tested(plan)
}

#[tactic(auto, unfolding(crate::specs::TestsAndWrites::step_asked))]
pub fn step_on(
    plan: TestedPlan,
    run: &mut [u8; 291],
    letter: u8,
    number: u32,
) -> Result<(), Refusal>
    ensures value { result_err result ≡ result_err (step_asked plan.plan run.old letter number) }
    ensures run_after { run.new ≡ leaves (step_asked plan.plan run.old letter number) (run_put plan.plan run.old) run.old }
{
    let step = step_spelt(letter, number)?;
    let before = run_spelt(plan, run)?;
    let after = step_tested(plan, before, step)?;
    write_run(run, plan.plan.nodes.0 as usize, after);
    Ok(())
}

#[tactic(auto, unfolding(crate::specs::TestsAndWrites::apart_asked))]
pub fn apart_on(plan: TestedPlan, run: &[u8; 291], answer: &mut [u8; 9]) -> Result<(), Refusal>
    ensures value { result_err result ≡ result_err (apart_asked plan.plan run.now) }
    ensures answer_after { answer.new ≡ leaves (apart_asked plan.plan run.now) apart_bytes answer.old }
{
    let tested = run_tested(plan, run)?;
    *answer = apart_form(apart_tested(plan, tested.run));
    Ok(())
}

#[tactic(auto, unfolding(crate::specs::TestsAndWrites::ticks_asked, answer_bytes::specs::Forms::ticks_bytes))]
pub fn reckon_on(
    plan: TestedPlan,
    run: &[u8; 291],
    node: u32,
    ticks: &mut [u8; 4],
) -> Result<(), Refusal>
    ensures value { result_err result ≡ result_err (ticks_asked plan.plan run.now node) }
    ensures ticks_after { ticks.new ≡ leaves (ticks_asked plan.plan run.now node) ticks_bytes ticks.old }
{
    let before = run_spelt(plan, run)?;
    let reckoned = reckon_tested(plan, before, Node(node))?;
    *ticks = ticks_form(reckoned);
    Ok(())
}
