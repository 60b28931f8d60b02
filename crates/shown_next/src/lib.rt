// The next step of a shown run, and the place after it.
#![tactic(auto)]

mod choosing;

ghost use Rattle.std.specs.Prelude.{◌≡◌, IfSome};
ghost use Rattle.std.specs.Option.{option_map};
ghost use Rattle.run.specs.State.{is_out_of_step};
ghost use Rattle.shown.specs.Parts.{parts_for};
ghost use Rattle.shown.specs.Shown.{given_by, given_of, place_of, given_with};
ghost use Rattle.shown_look.specs.Looking.{seen_from};

use choosing::{mark_after, next_step};
use elsewhere::is_out_of_step;
use plan::{Plan, Refusal};
use rules::{Prepared, prepare};
use run::{Step, TestedRun};
use shown::{Given, Mark, Place, Showing};
use shown_look::{Seen, look_round};
use shown_parts::parts_tested;
use steps::moved;

// Out of step, of a run in which these were seen: only where somebody sends need anyone be asked.
fn is_out(showing: Showing, seen: Seen) -> bool
    requires { seen ≡ seen_from showing.run.plan.plan showing.parts (place_of showing) 0 }
    ensures { result ≡ is_out_of_step showing.run.plan.plan showing.run.run }
{
    seen.sending < showing.run.plan.plan.nodes && is_out_of_step(showing.run.plan, showing.run.run)
}

// The next step, and the place after it; none where the run is finished.
// Step follows step with no test of plan or run, at a cost that goes by N alone. In step and with no time past due, the step
// is legal and needs no test of its own.
pub fn given_tested(showing: Showing) -> Option<(Step, Showing)>
    ensures given { option_map given_with result ≡ given_by showing.run.plan.plan showing.parts (place_of showing) }
    ensures same { IfSome result (λ taken. (taken.1.run.plan.plan ≡ showing.run.plan.plan) × (taken.1.parts ≡ showing.parts)) }
{
    let seen = look_round(
        showing.run.plan,
        showing.parts,
        &showing.run.run,
        showing.mark,
    )?;
    if is_out(showing, seen) {
        return None;
    }
    let step = next_step(showing, seen);
    let next = moved(showing.run, step);
    let after = Showing {
        run: next,
        parts: showing.parts,
        mark: mark_after(showing, step),
    };
    Some((step, after))
}

// A place of the run that is shown for the rule that fails; none where none fails.
pub fn showing(prepared: Prepared, run: TestedRun, mark: Mark) -> Option<Showing>
    requires { run.plan.plan ≡ prepared.plan.plan }
    ensures parts { option_map (λ shown. shown.parts) result ≡ option_map (parts_for run.plan.plan) prepared.verdict.failed }
    ensures same { IfSome result (λ shown. (shown.run.plan.plan ≡ run.plan.plan) × (place_of shown ≡ record { run = run.run; mark = mark })) }
{
    let rule = prepared.verdict.failed?;
    Some(Showing {
        run: run,
        parts: parts_tested(
            prepared.plan,
            prepared.distances,
            prepared.verdict.gap,
            rule,
        ),
        mark: mark,
    })
}

// The next step of the shown run of any plan at any place.
#[tactic(auto, unfolding(shown::specs::Shown::given_of, shown::specs::Shown::given_for))]
pub fn next_shown(plan: Plan, place: Place) -> Result<Option<Given>, Refusal>
    ensures { result ≡ given_of plan place }
{
    let tested = plan.tested()?;
    let run = place.run.tested(tested)?;
    let Some(shown) = showing(prepare(tested), run, place.mark) else {
        return Ok(None);
    };
    let Some((step, after)) = given_tested(shown) else {
        return Ok(None);
    };
    Ok(Some(Given {
        step: step,
        place: Place::from(after),
    }))
}
