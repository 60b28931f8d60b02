// What the judging program writes of a plan file: the verdict, and for a plan that fails a rule its shown run, line by line.
// The plan is tested and prepared once; text waits in a page and goes out in blocks.
#![tactic(auto)]

use elsewhere::apart_tested;
use lines::{write_out, write_refused, write_step};
use pages::Page;
use plan::{Refusal, TestedPlan};
use plan_file::read_tested;
use rules::{Prepared, prepare};
use run::TestedRun;
use shown::Mark;
use shown_next::{given_tested, showing};
use std::io;
use verdict_lines::write_judged;

// The whole shown run of a plan that fails a rule, step by step from place to place, and how it is out of step then.
// It ends because each step leaves one fewer of the steps that the shown run has.
fn show(rt: &impl Print, prepared: Prepared, page: &mut Page) -> io::Result<()> {
    let fresh = TestedRun::fresh(prepared.plan);
    let Some(mut shown) = showing(prepared, fresh, Mark::Before) else {
        return Ok(());
    };
    while let Some((step, next)) = given_tested(shown) {
        page.add(rt, |out, at| write_step(out, at, step))?;
        shown = next;
    }
    let Some(apart) = apart_tested(shown.run.plan, shown.run.run) else {
        return Ok(());
    };
    page.add(rt, |out, at| write_out(out, at, apart))
}

// The verdict, and the shown run of a plan that fails.
fn judged(rt: &impl Print, plan: TestedPlan) -> io::Result<()> {
    let mut page = Page::new();
    let prepared = prepare(plan);
    page.add(rt, |out, at| {
        write_judged(out, at, plan.plan.nodes, Ok(prepared.verdict))
    })?;
    show(rt, prepared, &mut page)?;
    page.flush(rt)
}

// The one line of a file that holds no plan.
fn refused(rt: &impl Print, refusal: Refusal) -> io::Result<()> {
    let mut page = Page::new();
    page.add(rt, |out, at| write_refused(out, at, refusal.number()))?;
    page.flush(rt)
}

// The judge's whole text of a plan file, on standard output: of a refused one a line.
pub fn tell(rt: &impl Print, file: &[u8]) -> io::Result<()> {
    match read_tested(file) {
        Ok(plan) => judged(rt, plan),
        Err(refusal) => refused(rt, refusal),
    }
}
