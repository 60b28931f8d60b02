// The verdict of a plan that passed 1 to 9.
ghost use Rattle.std.specs.Prelude.{◌≡◌};
ghost use Rattle.rules.specs.Rules.{verdict_of};

use plan::TestedPlan;
use rules::{Verdict, prepare};

// (Beside `prepare` of `rules`, and not in its place: the edit frame-for-gap is refused by this clause.)
pub fn verdict_by(plan: TestedPlan) -> Verdict
    ensures { result ≡ verdict_of plan.plan }
{
    prepare(plan).verdict
}
