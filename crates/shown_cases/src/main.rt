// Shown runs, whole and place by place, one case a line of `cases`, as `case_lines` reads them. A line that asks for a file names
// a plan file: what the judging program writes of it. Any other is a place, a mark with a plan and a run: the next shown step
// there.
#![tactic(auto)]

use case_lines::{asked, each_case};
use lines::write_step;
use pages::Page;
use plan::Plan;
use run::Step;
use shown::{Mark, Place};
use shown_next::next_shown;
use std::io;
use std::rt::Files;
use streams::read_file_start;

// By its word's first letter.
fn mark_in(letter: Option<u8>) -> Mark {
    match letter {
        Some(b'b') => Mark::Before,
        Some(b'i') => Mark::In,
        _ => Mark::After,
    }
}

fn mark_word(mark: Mark) -> &'static str {
    match mark {
        Mark::Before => "before",
        Mark::In => "in",
        Mark::After => "after",
    }
}

fn step_line(rt: &impl Print, step: Step) -> io::Result<()> {
    let mut page = Page::new();
    page.add(rt, |out, at| write_step(out, at, step))?;
    page.flush(rt)
}

// The mark before and after, and the step between them.
fn answered(rt: &impl Print, plan: Plan, place: Place) -> io::Result<()> {
    let mark = mark_word(place.mark);
    match next_shown(plan, place) {
        Ok(Some(given)) => {
            let after = mark_word(given.place.mark);
            print!(rt; "{mark} to {after}, ")?;
            step_line(rt, given.step)
        }
        Ok(None) => println!(rt; "{mark} to {mark}, finished"),
        Err(refusal) => println!(rt; "{mark} to {mark}, {refusal}"),
    }
}

// A place: the next step there.
fn place_case(rt: &impl Print, name: &[u8], parts: &[u8]) -> io::Result<()> {
    rt.write_all(name)?;
    print!(rt; ": ")?;
    let place = Place {
        run: case_lines::run_in(parts),
        mark: mark_in(asked(parts)),
    };
    answered(rt, case_lines::plan_in(parts), place)
}

// A plan file: what the judging program writes of it.
fn run_case(rt: &(impl Print + Files), name: &[u8]) -> io::Result<()> {
    print!(rt; "plan ")?;
    rt.write_all(name)?;
    println!(rt;)?;
    let mut file = [0u8; 4096];
    let n = read_file_start(rt, name, &mut file);
    judging::tell(rt, &file[..n])
}

fn case(rt: &(impl Print + Files), name: &[u8], parts: &[u8]) -> io::Result<()> {
    if asked(parts) == Some(b'f') {
        return run_case(rt, name);
    }
    place_case(rt, name, parts)
}

fn main(rt: HostRuntime) -> io::Result<()> {
    each_case(&rt, |name, parts| case(&rt, name, parts))
}
