// The stepping program: the first argument names a plan file, steps come on standard input, and each line gets one line,
// `ok` or `refused` and its number. The plan is tested once; answers are written in blocks.
#![tactic(auto)]

ghost use Rattle.std.specs.Prelude.{◌≡◌};

use lines::write_answer;
use pages::Page;
use plan::{Refusal, TestedPlan};
use run::TestedRun;
use std::env::Env;
use std::io;
use std::io::Read;
use step_lines::{Reading, reading_byte, reading_end};
use streams::read_file_start;

// What is carried from byte to byte: the run, and the line that is not yet ended.
#[derive(Drop)]
struct Desk {
    run: TestedRun,
    reading: Reading,
}

// The line ends here: the step that it asks for is done, or refused. The plan stays.
fn line_done(desk: &mut Desk) -> Result<(), Refusal>
    ensures { desk.new.run.plan.plan ≡ desk.old.run.plan.plan }
{
    let line = reading_end(desk.reading);
    desk.reading = Reading::Nothing;
    desk.run = steps::step_in_range(desk.run, line?)?;
    Ok(())
}

fn put_answer(rt: &impl Print, page: &mut Page, answer: Result<(), Refusal>) -> io::Result<()> {
    page.add(rt, |out, at| write_answer(out, at, answer))
}

// Every line that ends in the block is answered. The plan stays, so the run is in range of it after the block too.
fn block_done(rt: &impl Print, desk: &mut Desk, block: &[u8], page: &mut Page) -> io::Result<()>
    ensures { desk.new.run.plan.plan ≡ desk.old.run.plan.plan }
{
    for byte in block {
        desk.reading = reading_byte(desk.reading, *byte);
        if *byte == b'\n' {
            put_answer(rt, page, line_done(desk))?;
        }
    }
    Ok(())
}

// A last line without its newline is a line of another shape; nothing after the last newline is no line.
fn last_line(rt: &impl Print, desk: &Desk, page: &mut Page) -> io::Result<()> {
    if desk.reading == Reading::Nothing {
        return Ok(());
    }
    put_answer(rt, page, Err(Refusal::LineWrong))?;
    page.flush(rt)
}

// Blocks as they come, until the input ends; a read that fails counts as its end. (A range, since a loop with no end would need a
// bound that nothing here may have.)
fn all_steps(rt: &HostRuntime, plan: TestedPlan) -> io::Result<()> {
    let mut page = Page::new();
    let mut desk = Desk {
        run: TestedRun::fresh(plan),
        reading: Reading::Nothing,
    };
    let mut input = rt.stdin();
    for _turn in 0..u64::MAX {
        let mut block = [0u8; 4096];
        let n = input.read(&mut block).unwrap_or(0);
        if n == 0 {
            return last_line(rt, &desk, &mut page);
        }
        block_done(rt, &mut desk, &block[..n], &mut page)?;
        page.flush(rt)?;
    }
    Ok(())
}

// The one line of a file that holds no plan.
fn refused(rt: &HostRuntime, refusal: Refusal) -> io::Result<()> {
    let mut page = Page::new();
    put_answer(rt, &mut page, Err(refusal))?;
    page.flush(rt)
}

// A file that can't be read counts as empty, and so does one without a name; of a file longer than any plan file no more is read
// than shows that it is.
fn main(rt: HostRuntime) -> io::Result<()> {
    let mut path = [0u8; 4096];
    let length = rt.arg(1, &mut path).unwrap_or(0);
    let mut file = [0u8; 4096];
    let n = read_file_start(&rt, &path[..length], &mut file);
    match plan_file::read_tested(&file[..n]) {
        Ok(plan) => all_steps(&rt, plan),
        Err(refusal) => refused(&rt, refusal),
    }
}
