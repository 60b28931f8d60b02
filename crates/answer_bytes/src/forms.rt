// Answers as bytes.
ghost use Rattle.std.specs.Prelude.{◌≡◌};
ghost use Rattle.answer_bytes.specs.Forms.{step_bytes, apart_bytes, ticks_bytes};

use letters::Spelt;
use run::{Apart, Step, Ticks};
use run_bytes::put;

// Its letter, and the length of the delay or the node.
#[tactic(auto, unfolding(crate::specs::Forms::step_bytes, letters::specs::Letters::spelt_of))]
pub fn step_form(step: Step) -> [u8; 5]
    ensures { result ≡ step_bytes step }
{
    let spelt = Spelt::from(step);
    let mut form = [u8::from(spelt.letter); 5];
    put(&mut form, 1, &spelt.number.to_be_bytes());
    form
}

#[tactic(auto, unfolding(crate::specs::Forms::apart_bytes))]
pub fn apart_form(apart: Option<Apart>) -> [u8; 9]
    ensures { result ≡ apart_bytes apart }
{
    let mut form = [0; 9];
    if let Some(apart) = apart {
        form[0] = 1;
        put(&mut form, 1, &apart.sending.0.to_be_bytes());
        put(&mut form, 5, &apart.elsewhere.0.to_be_bytes());
    }
    form
}

#[tactic(auto, unfolding(crate::specs::Forms::ticks_bytes))]
pub fn ticks_form(ticks: Ticks) -> [u8; 4]
    ensures { result ≡ ticks_bytes ticks }
{
    ticks.0.to_be_bytes()
}
