// A plan that refusals 1 to 9 let through.
ghost use Rattle.std.specs.Prelude.{◌≡◌, IfOk};
ghost use Rattle.std.specs.Result.{result_err};
ghost use Rattle.plan.specs.Tested.{plan_refusal, Sound};

use crate::tests::{frame_tested, slots_tested, ticks_tested};
use crate::{Plan, Refusal};

#[derive(Clone, Copy, Debug)]
pub struct TestedPlan {
    pub plan: Plan,
    pub ghost sound: { Sound plan },
}

impl Plan {
    // The plan as a tested one, or the first of refusals 1 to 9 that speaks against it, in the table's order.
    #[tactic(auto, using(crate::proofs::Sound::frame_speaks, crate::proofs::Sound::ticks_speak, crate::proofs::Sound::slots_decide, crate::proofs::Sound::few_nodes, crate::proofs::Sound::sound))]
    pub fn tested(self) -> Result<TestedPlan, Refusal>
        ensures refusal { result_err result ≡ plan_refusal self }
        ensures same { IfOk result (λ tested. tested.plan ≡ self) }
    {
        frame_tested(self)?;
        ticks_tested(self)?;
        slots_tested(self)?;
        Ok(TestedPlan { plan: self })
    }
}
