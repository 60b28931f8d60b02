// Step lines read: a step, or refusal 19.
#![tactic(auto)]

ghost use Rattle.std.specs.Prelude.{◌≡◌};
ghost use Rattle.step_lines.specs.StepLine.{line_of};
ghost use Rattle.step_lines.specs.Reading.{number_after, reading_after, line_read};

use letters::{Letter, Spelt};
use plan::Refusal;
use run::Step;

// What was read of a line so far.
#[derive(Clone, Copy, Debug, PartialEq, Eq)]
pub enum Reading {
    Nothing,
    // the letter
    Letter(Letter),
    // the letter, and the blank after it
    Blank(Letter),
    // the letter and a number
    Number(Spelt),
    // the letter, the number and the newline
    Whole(Spelt),
    // no step line begins so
    Wrong,
}

// The byte after a number.
fn number_after(spelt: Spelt, byte: u8) -> Reading
    ensures { result ≡ number_after spelt byte }
{
    if byte == b'\n' {
        return Reading::Whole(spelt);
    }
    if !byte.is_ascii_digit() {
        return Reading::Wrong;
    }
    if spelt.number == 0 {
        return Reading::Wrong;
    }
    let more = spelt.number as u64 * 10 + (byte - b'0') as u64;
    if more > 4294967295 {
        return Reading::Wrong;
    }
    Reading::Number(Spelt {
        letter: spelt.letter,
        number: more as u32,
    })
}

// A line read so far, and one byte more.
#[tactic(auto, unfolding(crate::specs::Reading::reading_after))]
pub fn reading_byte(reading: Reading, byte: u8) -> Reading
    ensures { result ≡ reading_after reading byte }
{
    match reading {
        Reading::Nothing => match Letter::try_from(byte) {
            Ok(letter) => Reading::Letter(letter),
            Err(_) => Reading::Wrong,
        },
        Reading::Letter(letter) => {
            if byte == b' ' {
                return Reading::Blank(letter);
            }
            Reading::Wrong
        }
        Reading::Blank(letter) => {
            if byte.is_ascii_digit() {
                return Reading::Number(Spelt {
                    letter: letter,
                    number: (byte - b'0') as u32,
                });
            }
            Reading::Wrong
        }
        Reading::Number(spelt) => number_after(spelt, byte),
        Reading::Whole(_) => Reading::Wrong,
        Reading::Wrong => Reading::Wrong,
    }
}

// What a line asks for that ends here.
#[tactic(auto, unfolding(crate::specs::Reading::line_read))]
pub fn reading_end(reading: Reading) -> Result<Step, Refusal>
    ensures { result ≡ line_read reading }
{
    match reading {
        Reading::Whole(spelt) => Ok(Step::from(spelt)),
        _ => Err(Refusal::LineWrong),
    }
}

// A whole line read.
pub fn read_line(line: &[u8]) -> Result<Step, Refusal>
    ensures { result ≡ line_of line.now }
{
    reading_end(
        line.iter().fold(
            Reading::Nothing,
            |reading, byte| reading_byte(reading, *byte),
        ),
    )
}
