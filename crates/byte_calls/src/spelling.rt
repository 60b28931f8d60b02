// A step by its letter and number; the letter is a byte, as a caller outside has it.
ghost use Rattle.std.specs.Prelude.{◌≡◌};
ghost use Rattle.byte_calls.specs.Many.{step_spelt};

use letters::{Letter, Spelt};
use plan::Refusal;
use run::Step;

#[tactic(auto, unfolding(crate::specs::Many::step_spelt), using(letters::proofs::Spelling::letter_byte, letters::proofs::Spelling::no_letter, letters::proofs::Spelling::byte_is_letter))]
pub fn step_spelt(letter: u8, number: u32) -> Result<Step, Refusal>
    ensures { result ≡ step_spelt letter number }
{
    let letter = Letter::try_from(letter)?;
    Ok(Step::from(Spelt { letter, number }))
}
