// The lines of a run, step, `out` and answer, and the one line of a refusal.
#![tactic(auto)]

ghost use Rattle.std.specs.Prelude.{◌≡◌, ◌+◌, ◌≤◌, length};
ghost use Rattle.text.specs.Text.{Put};
ghost use Rattle.text.specs.Written.{wrote_of, buffer_of};
ghost use Rattle.lines.specs.Lines.{refused_line, step_text, answer_text, out_text};

use letters::Spelt;
use plan::Refusal;
use run::{Apart, Step};
use text::{put_byte, put_ended, put_in_room, put_numbered, put_word};

// The line of a refusal by its number, whatever that is, for whoever has room for it. (Buffer and place as in `text`.)
pub fn put_refused(out: &mut [u8], at: usize, number: u8) -> usize
    requires { at + 19 ≤ length out.old }
    ensures { Put 19 out.old at (refused_line number) out.new result }
{
    put_ended(out, at, b"refused ", number as u32)
}

#[tactic(auto, unfolding(crate::specs::Lines::step_text))]
fn put_step(out: &mut [u8], at: usize, step: Step) -> usize
    requires { at + 13 ≤ length out.old }
    ensures { Put 13 out.old at (step_text step) out.new result }
{
    let spelt = Spelt::from(step);
    let first = put_byte(out, at, u8::from(spelt.letter));
    put_ended(out, first, b" ", spelt.number)
}

#[tactic(auto, unfolding(crate::specs::Lines::answer_text))]
fn put_answer(out: &mut [u8], at: usize, answer: Result<(), Refusal>) -> usize
    requires { at + 19 ≤ length out.old }
    ensures { Put 19 out.old at (answer_text answer) out.new result }
{
    match answer {
        Ok(()) => put_word(out, at, b"ok\n"),
        Err(refusal) => put_refused(out, at, refusal.number()),
    }
}

#[tactic(auto, unfolding(crate::specs::Lines::out_text))]
fn put_out(out: &mut [u8], at: usize, apart: Apart) -> usize
    requires { at + 26 ≤ length out.old }
    ensures { Put 26 out.old at (out_text apart) out.new result }
{
    let first = put_numbered(out, at, b"out ", apart.sending.0);
    put_ended(out, first, b" ", apart.elsewhere.0)
}

// A step line.
pub fn write_step(out: &mut [u8], at: usize, step: Step) -> Option<usize>
    ensures value { result ≡ wrote_of 32 out.old at (step_text step) }
    ensures out_after { out.new ≡ buffer_of 32 out.old at (step_text step) }
{
    put_in_room(out, at, 32, |out| put_step(out, at, step))
}

// The last line of a shown run.
pub fn write_out(out: &mut [u8], at: usize, apart: Apart) -> Option<usize>
    ensures value { result ≡ wrote_of 32 out.old at (out_text apart) }
    ensures out_after { out.new ≡ buffer_of 32 out.old at (out_text apart) }
{
    put_in_room(out, at, 32, |out| put_out(out, at, apart))
}

// The answer to a step.
pub fn write_answer(out: &mut [u8], at: usize, answer: Result<(), Refusal>) -> Option<usize>
    ensures value { result ≡ wrote_of 32 out.old at (answer_text answer) }
    ensures out_after { out.new ≡ buffer_of 32 out.old at (answer_text answer) }
{
    put_in_room(out, at, 32, |out| put_answer(out, at, answer))
}

// The one line of a refusal, by its number.
pub fn write_refused(out: &mut [u8], at: usize, number: u8) -> Option<usize>
    ensures value { result ≡ wrote_of 32 out.old at (refused_line number) }
    ensures out_after { out.new ≡ buffer_of 32 out.old at (refused_line number) }
{
    put_in_room(out, at, 32, |out| put_refused(out, at, number))
}
