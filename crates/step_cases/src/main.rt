// Steps, the out-of-step test and reckonings on states handed in, one case a line of `cases`: its name, a colon, a step, a plan
// and a run, as `case_lines` reads them. Two lines for each.
#![tactic(auto)]

use case_lines::{asked, each_case, number};
use letters::step_by;
use plan::{Node, Plan, Refusal, Slot};
use run::{Mode, NodeState, Run, Step};
use std::io;

// What is asked: a step by its letter, a send where it is none, and its number.
fn step_in(parts: &[u8]) -> Step {
    step_by(asked(parts).unwrap_or(0), number(parts, 0, 0).unwrap_or(0))
}

fn node_words(rt: &impl Print, node: NodeState) -> io::Result<()> {
    let mode = match node.mode {
        Mode::Waiting => "waiting",
        Mode::AboutToSend => "about",
        Mode::Sending => "sending",
    };
    let pending = if node.pending { " pending" } else { "" };
    print!(rt;
        "; {} {} {} {mode}{pending}",
        node.clock.0, node.slot.0, node.time.0
    )
}

fn last_word(rt: &impl Print, last: Option<Slot>) -> io::Result<()> {
    match last {
        Some(slot) => print!(rt; "; last {}", slot.0),
        None => print!(rt; "; none sent"),
    }
}

// What the step answers, and the places after it: the first four and the last.
fn after_words(rt: &impl Print, answer: Result<(), Refusal>, run: Run) -> io::Result<()> {
    match answer {
        Ok(()) => print!(rt; ": ok")?,
        Err(refusal) => print!(rt; ": {refusal}")?,
    }
    for node in &run.nodes[..4] {
        node_words(rt, *node)?;
    }
    node_words(rt, run.nodes[31])?;
    last_word(rt, run.last)?;
    println!(rt;)
}

// What the two questions say of the state before it.
fn before_words(rt: &impl Print, plan: Plan, before: Run, node: Node) -> io::Result<()> {
    match elsewhere::out_of_step(plan, before) {
        Ok(None) => print!(rt; "  in step")?,
        Ok(Some(apart)) => print!(rt; "  out {} {}", apart.sending.0, apart.elsewhere.0)?,
        Err(refusal) => print!(rt; "  {refusal}")?,
    }
    match reckoning::reckon(plan, before, node) {
        Ok(ticks) => println!(rt; ", reckons {}", ticks.0),
        Err(refusal) => println!(rt; ", {refusal}"),
    }
}

fn case(rt: &impl Print, name: &[u8], parts: &[u8]) -> io::Result<()> {
    let plan = case_lines::plan_in(parts);
    let before = case_lines::run_in(parts);
    let step = step_in(parts);
    rt.write_all(name)?;
    let (answer, after) = desk::step_at_desk(before, plan, step);
    after_words(rt, answer, after)?;
    before_words(rt, plan, before, Node(number(parts, 0, 0).unwrap_or(0)))
}

fn main(rt: HostRuntime) -> io::Result<()> {
    each_case(&rt, |name, parts| case(&rt, name, parts))
}
