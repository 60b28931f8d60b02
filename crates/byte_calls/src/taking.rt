// What every call on a plan file begins with: the plan in the file.
ghost use Rattle.std.specs.Prelude.{◌≡◌, IfOk};
ghost use Rattle.std.specs.Result.{result_err};
ghost use Rattle.byte_calls.specs.Taken.{read_refusal, plan_in};

use plan::{Refusal, TestedPlan};
use plan_file::read_tested;

#[tactic(auto, unfolding(crate::specs::Taken::read_refusal, crate::specs::Taken::plan_in))]
pub fn taken_from(file: &[u8]) -> Result<TestedPlan, Refusal>
    ensures refusal { result_err result ≡ read_refusal file.now }
    ensures plan { IfOk result (λ tested. tested.plan ≡ plan_in file.now) }
{
    read_tested(file)
}
