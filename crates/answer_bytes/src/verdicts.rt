// A verdict as 51 bytes.
ghost use Rattle.std.specs.Prelude.{◌≡◌, ◌+◌, ◌≤◌, length};
ghost use Rattle.std.proofs.lemmas.List.Edits.{sets};
ghost use Rattle.answer_bytes.specs.Forms.{sides_bytes, verdict_bytes};

use rules::{Rule, Sides, Verdict};
use run_bytes::put;

fn put_sides(bytes: &mut [u8], at: usize, sides: Sides)
    requires { at + 16 ≤ length bytes.old }
    ensures { bytes.new ≡ sets bytes.old at (sides_bytes sides) }
{
    put(bytes, at, &sides.left.to_be_bytes());
    put(bytes, at + 8, &sides.right.to_be_bytes());
}

pub fn verdict_form(verdict: Verdict) -> [u8; 51]
    ensures { result ≡ verdict_bytes verdict }
{
    let mut form = [0; 51];
    put(&mut form, 0, &[verdict.failed.map_or(0, Rule::number)]);
    put(&mut form, 1, &verdict.gap.0.to_be_bytes());
    put_sides(&mut form, 3, verdict.one);
    put_sides(&mut form, 19, verdict.two);
    put_sides(&mut form, 35, verdict.three);
    form
}
