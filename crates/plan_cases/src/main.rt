// What refusals say of plans, one case a line of `cases`, as `case_lines` reads them. A line that asks for a file names a plan
// file: what the reader makes of it. Any other has a plan's numbers: what refusals 1 to 9 say of them, so that N can be one that
// no file can hold, and places that no node has can be full.
#![tactic(auto)]

use case_lines::{asked, each_case};
use plan::{Plan, Refusal};
use std::io;
use std::rt::Files;
use streams::read_file_start;

// All 32 places of the slots, so that those from N on are seen too.
fn taken(rt: &impl Print, plan: Plan) -> io::Result<()> {
    print!(rt; " taken nodes {} frame {}", plan.nodes.0, plan.frame.0)?;
    print!(rt; " active {} ticks {}", plan.active.0, plan.ticks.0)?;
    print!(rt; " guard {} tail {}", plan.guard.0, plan.tail.0)?;
    print!(rt; " min {} max {} slots", plan.min.0, plan.max.0)?;
    for slot in plan.slots {
        print!(rt; " {}", slot.0)?;
    }
    Ok(())
}

// A file that can't be read counts as empty.
fn file_case(rt: &(impl Print + Files), name: &[u8]) -> io::Result<()> {
    let mut file = [0u8; 4096];
    let n = read_file_start(rt, name, &mut file);
    match plan_file::read_tested(&file[..n]) {
        Ok(tested) => taken(rt, tested.plan),
        Err(refusal) => print!(rt; " {refusal}"),
    }
}

// The refusal's number; 0 where the plan passes 1 to 9.
fn plan_case(rt: &impl Print, parts: &[u8]) -> io::Result<()> {
    let refused = case_lines::plan_in(parts).tested().err();
    print!(rt; " number {}", refused.map_or(0, Refusal::number))
}

fn case(rt: &(impl Print + Files), name: &[u8], parts: &[u8]) -> io::Result<()> {
    rt.write_all(name)?;
    if asked(parts) == Some(b'f') {
        file_case(rt, name)?;
    } else {
        plan_case(rt, parts)?;
    }
    println!(rt;)
}

fn main(rt: HostRuntime) -> io::Result<()> {
    each_case(&rt, |name, parts| case(&rt, name, parts))
}
