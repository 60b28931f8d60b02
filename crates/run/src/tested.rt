// A run that refusal 10 lets through, beside its plan.
ghost use Rattle.std.specs.Prelude.{◌≡◌, true, IfOk};
ghost use Rattle.std.specs.Result.{result_err};
ghost use Rattle.run.specs.State.{fresh_run, in_range, range_refusal};

use crate::{Run, fresh, in_range};
use plan::{Refusal, TestedPlan};

#[derive(Clone, Copy, Debug)]
pub struct TestedRun {
    pub plan: TestedPlan,
    pub run: Run,
    pub ghost in_range: { in_range plan.plan run ≡ true },
}

impl TestedRun {
    // The run at its beginning, which is in range for any plan.
    #[tactic(auto, using(crate::proofs::Ranges::fresh_range))]
    pub fn fresh(plan: TestedPlan) -> TestedRun
        ensures plan { result.plan.plan ≡ plan.plan }
        ensures run { result.run ≡ fresh_run }
    {
        TestedRun {
            plan: plan,
            run: fresh(),
        }
    }
}

impl Run {
    // The run as a tested one, or refusal 10 where a number of it lies outside its range.
    pub fn tested(self, plan: TestedPlan) -> Result<TestedRun, Refusal>
        ensures refusal { result_err result ≡ range_refusal plan.plan self }
        ensures same { IfOk result (λ tested. (tested.plan.plan ≡ plan.plan) × (tested.run ≡ self)) }
    {
        if !in_range(plan, self) {
            return Err(Refusal::RunOutside);
        }
        Ok(TestedRun {
            plan: plan,
            run: self,
        })
    }
}
