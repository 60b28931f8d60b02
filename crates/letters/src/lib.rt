// A step spelt: its letter and its number, and the step that they spell.
#![tactic(auto)]

ghost use Rattle.std.specs.Prelude.{◌≡◌};
ghost use Rattle.plan.specs.declared.refusal.Refusal.TheVariants.{LineWrong};
ghost use Rattle.letters.specs.Letters.{spelt_of, byte_of, letter_of, step_by, step_spelt};

use plan::{Node, Refusal, Time};
use run::Step;
use std::error::Error;
use std::fmt;

// The letter of a kind of step: a delay, a tick, a send.
#[derive(Clone, Copy, Debug, PartialEq, Eq)]
pub enum Letter {
    D,
    T,
    S,
}

// A byte is no letter of a step.
#[derive(Clone, Copy, Debug, PartialEq, Eq)]
pub struct NoLetter;

// The letter of a kind of step, and the length of the delay or the node.
#[derive(Clone, Copy, Debug, PartialEq, Eq)]
pub struct Spelt {
    pub letter: Letter,
    pub number: u32,
}

impl fmt::Display for NoLetter {
    fn fmt<W: fmt::Write>(&self, f: &mut fmt::Formatter<W>) -> fmt::Result {
        write!(f, "no letter of a step")
    }
}

impl Error for NoLetter {}

impl From<NoLetter> for Refusal {
    ghost from_gives = { λ _ refusal. refusal ≡ LineWrong };

    fn from(_none: NoLetter) -> Refusal {
        Refusal::LineWrong
    }
}

impl From<Letter> for u8 {
    ghost from_gives = { λ letter byte. byte ≡ byte_of letter };

    fn from(letter: Letter) -> u8 {
        match letter {
            Letter::D => b'D',
            Letter::T => b'T',
            Letter::S => b'S',
        }
    }
}

impl TryFrom<u8> for Letter {
    type Error = NoLetter;

    ghost try_from_gives = { λ byte result. result ≡ letter_of byte };

    #[tactic(auto, unfolding(crate::specs::Letters::letter_of))]
    fn try_from(byte: u8) -> Result<Letter, NoLetter> {
        match byte {
            b'D' => Ok(Letter::D),
            b'T' => Ok(Letter::T),
            b'S' => Ok(Letter::S),
            _ => Err(NoLetter),
        }
    }
}

impl From<Step> for Spelt {
    ghost from_gives = { λ step spelt. spelt ≡ spelt_of step };

    #[tactic(auto, unfolding(crate::specs::Letters::spelt_of))]
    fn from(step: Step) -> Spelt {
        match step {
            Step::Delay(time) => Spelt {
                letter: Letter::D,
                number: time.0,
            },
            Step::TickOf(node) => Spelt {
                letter: Letter::T,
                number: node.0,
            },
            Step::SendOf(node) => Spelt {
                letter: Letter::S,
                number: node.0,
            },
        }
    }
}

impl From<Spelt> for Step {
    ghost from_gives = { λ spelt step. step ≡ step_spelt spelt };

    fn from(spelt: Spelt) -> Step {
        let number = spelt.number;
        match spelt.letter {
            Letter::D => Step::Delay(Time(number)),
            Letter::T => Step::TickOf(Node(number)),
            Letter::S => Step::SendOf(Node(number)),
        }
    }
}

// The step that a byte for a letter and a number spell; a byte that is no letter counts as S.
pub fn step_by(letter: u8, number: u32) -> Step
    ensures { result ≡ step_by letter number }
{
    Step::from(Spelt {
        letter: Letter::try_from(letter).unwrap_or(Letter::S),
        number: number,
    })
}
