// The next step of a shown run by bytes, of a plan that passed 1 to 9.
ghost use Rattle.std.specs.Prelude.{◌≡◌};
ghost use Rattle.std.specs.Result.{result_err};
ghost use Rattle.byte_calls.specs.TestsAndWrites.{leaves, place_spelt, next_asked, place_put, step_put};

use answer_bytes::{Unanswered, place_wrong, read_place, step_form, write_place};
use plan::{Refusal, TestedPlan};
use shown::{Given, Place};
use shown_next::next_shown;

// The place in bytes; refusal 10 where they spell none.
#[tactic(auto, unfolding(crate::specs::TestsAndWrites::place_spelt))]
fn place_spelt(plan: TestedPlan, place: &[u8; 292]) -> Result<Place, Refusal>
    ensures { result ≡ place_spelt plan.plan place.now }
{
    let nodes = plan.plan.nodes.0 as usize;
    if place_wrong(place, nodes) {
        return Err(Refusal::RunOutside);
    }
    Ok(read_place(place, nodes))
}

// The next step at the place in bytes.
#[tactic(auto, unfolding(crate::specs::TestsAndWrites::next_asked))]
fn next_asked(plan: TestedPlan, place: &[u8; 292]) -> Result<Given, Unanswered>
    ensures { result ≡ next_asked plan.plan place.now }
{
    let before = place_spelt(plan, place)?;
    match next_shown(plan.plan, before)? {
        Some(next) => Ok(next),
        None => Err(Unanswered::Finished),
    }
}

pub fn next_on(
    plan: TestedPlan,
    place: &mut [u8; 292],
    step: &mut [u8; 5],
) -> Result<(), Unanswered>
    ensures value { result_err result ≡ result_err (next_asked plan.plan place.old) }
    ensures place_after { place.new ≡ leaves (next_asked plan.plan place.old) (place_put plan.plan place.old) place.old }
    ensures step_after { step.new ≡ leaves (next_asked plan.plan place.old) step_put step.old }
{
    let next = next_asked(plan, place)?;
    write_place(place, plan.plan.nodes.0 as usize, next.place);
    *step = step_form(next.step);
    Ok(())
}
