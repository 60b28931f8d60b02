// The reader: the bytes of a plan file to a plan, or to a refusal (20 to 22, then 1 to 9).
#![tactic(auto)]

ghost use Rattle.std.specs.Prelude.{◌≡◌, ◌+◌, ◌*◌, ◌≤◌, ◌<◌, length, IfOk};
ghost use Rattle.std.specs.Result.{result_err};
ghost use Rattle.laws.specs.Bytes.{byte_at};
ghost use Rattle.plan_file.specs.File.{be16_of, be32_of, mark_wrong, is_length_wrong, file_refusal, slots_of, plan_of, no_plan, read_of};

use plan::{Node, Plan, Refusal, Slot, TestedPlan, Tick, Time};

// What the reader makes of a file: the plan where it is taken, a plan of zeros where it is refused. (Not a `Result` alone, since
// `read_plan` promises the zeros; `read_tested` is without them.)
#[derive(Clone, Copy, Debug)]
pub struct PlanRead {
    pub answer: Result<(), Refusal>,
    pub plan: Plan,
}

// A number of two bytes, and one of four, the high byte first. (Two functions: the library's `from_be_bytes` is each width's own.)
#[tactic(auto, unfolding(crate::specs::File::be16_of))]
pub fn be16(file: &[u8], at: usize) -> u16
    requires { at + 1 < length file.now }
    ensures { result ≡ be16_of file.now at }
{
    u16::from_be_bytes([file[at], file[at + 1]])
}

#[tactic(auto, unfolding(crate::specs::File::be32_of))]
pub fn be32(file: &[u8], at: usize) -> u32
    requires { at + 3 < length file.now }
    ensures { result ≡ be32_of file.now at }
{
    u32::from_be_bytes([file[at], file[at + 1], file[at + 2], file[at + 3]])
}

// Fewer than 5 bytes, or mark not `CSP`.
#[tactic(auto, unfolding(crate::specs::File::mark_wrong))]
fn mark_wrong(file: &[u8]) -> bool
    ensures { result ≡ mark_wrong file.now }
{
    file.len() < 5 || file[0] != b'C' || file[1] != b'S' || file[2] != b'P'
}

// Fewer than 21 bytes, or length not 21 + 2 × N.
#[tactic(auto, unfolding(crate::specs::File::is_length_wrong))]
fn length_wrong(file: &[u8]) -> bool
    ensures { result ≡ is_length_wrong file.now }
{
    file.len() < 21 || file.len() != 21 + 2 * usize::from(file[5])
}

// 20 to 22.
#[tactic(auto, using(crate::proofs::Passed::speaks_20, crate::proofs::Passed::speaks_21, crate::proofs::Passed::speaks_22, crate::proofs::Passed::none_speaks, crate::proofs::Passed::mark_long))]
fn file_tested(file: &[u8]) -> Result<(), Refusal>
    ensures { result_err result ≡ file_refusal file.now }
{
    if mark_wrong(file) {
        return Err(Refusal::NotAPlanFile);
    }
    if be16(file, 3) != 1 {
        return Err(Refusal::VersionUnknown);
    }
    if length_wrong(file) {
        return Err(Refusal::LengthWrong);
    }
    Ok(())
}

// The sending slots: at a place from N on it is 0.
#[tactic(auto, using(laws::proofs::Overs::over_none))]
fn slots_in(file: &[u8]) -> [Slot; 32]
    requires { (21 ≤ length file.now) × (21 + 2 * byte_at file.now 5 ≤ length file.now) }
    ensures { result ≡ slots_of file.now }
{
    let nodes = usize::from(file[5]);
    let mut slots = [Slot(0); 32];
    for (place, slot) in slots.iter_mut().enumerate() {
        *slot = if place < nodes {
            Slot(be16(file, 21 + 2 * place))
        } else {
            Slot(0)
        };
    }
    slots
}

// The plan that a file of the right length holds.
#[tactic(auto, unfolding(crate::specs::File::plan_of))]
fn plan_in(file: &[u8]) -> Plan
    requires { (21 ≤ length file.now) × (21 + 2 * byte_at file.now 5 ≤ length file.now) }
    ensures { result ≡ plan_of file.now }
{
    Plan {
        nodes: Node(u32::from(file[5])),
        frame: Slot(be16(file, 6)),
        active: Slot(be16(file, 8)),
        ticks: Tick(file[10]),
        guard: Tick(file[11]),
        tail: Tick(file[12]),
        min: Time(be32(file, 13)),
        max: Time(be32(file, 17)),
        slots: slots_in(file),
    }
}

#[tactic(auto, unfolding(crate::specs::File::no_plan))]
fn no_plan() -> Plan
    ensures { result ≡ no_plan }
{
    Plan {
        nodes: Node(0),
        frame: Slot(0),
        active: Slot(0),
        ticks: Tick(0),
        guard: Tick(0),
        tail: Tick(0),
        min: Time(0),
        max: Time(0),
        slots: [Slot(0); 32],
    }
}

// A plan file of any length and content: the plan, which passed 1 to 9, or the first refusal that speaks against it.
#[tactic(auto, using(crate::proofs::Passed::refused_by_file, crate::proofs::Passed::refused_by_plan, crate::proofs::Passed::plan_taken, crate::proofs::Passed::whole))]
pub fn read_tested(file: &[u8]) -> Result<TestedPlan, Refusal>
    ensures refusal { result_err result ≡ result_err (read_of file.now).answer }
    ensures plan { IfOk result (λ tested. tested.plan ≡ (read_of file.now).plan) }
{
    file_tested(file)?;
    plan_in(file).tested()
}

// The same, with a plan of zeros beside a refusal.
#[tactic(auto, using(crate::proofs::Passed::refused_read))]
pub fn read_plan(file: &[u8]) -> PlanRead
    ensures { result ≡ read_of file.now }
{
    match read_tested(file) {
        Ok(tested) => PlanRead {
            answer: Ok(()),
            plan: tested.plan,
        },
        Err(refusal) => PlanRead {
            answer: Err(refusal),
            plan: no_plan(),
        },
    }
}
