// What is found of a plan once, for all that goes on from it.
ghost use Rattle.std.specs.Prelude.{◌≡◌};
ghost use Rattle.gap.specs.Distances.{distances_of};
ghost use Rattle.rules.specs.Rules.{verdict_of};

use crate::{Verdict, verdict_tested};
use gap::Distances;
use plan::TestedPlan;

// A tested plan with every node's predecessor and D, and the verdict, with M in it.
#[derive(Clone, Copy, Debug)]
pub struct Prepared {
    pub plan: TestedPlan,
    pub distances: Distances,
    pub verdict: Verdict,
    pub ghost distances_right: { distances ≡ distances_of plan.plan },
    pub ghost verdict_right: { verdict ≡ verdict_of plan.plan },
}

pub fn prepare(plan: TestedPlan) -> Prepared
    ensures { result.plan.plan ≡ plan.plan }
{
    let distances = gap::distances_tested(plan);
    let gap = gap::gap_tested(plan, distances);
    let verdict = verdict_tested(plan, gap);
    Prepared {
        plan: plan,
        distances: distances,
        verdict: verdict,
    }
}
