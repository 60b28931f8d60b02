// The three rules and the verdict.
#![tactic(auto)]

ghost use Rattle.std.specs.Prelude.{◌≡◌, ◌*◌, ◌≤◌, ◌<◌};
ghost use Rattle.gap.specs.Gap.{gap_of};
ghost use Rattle.rules.specs.Rules.{rule_number, sides_with, sides_at, holds, failed_by, verdict_of, judged_of};

mod prepared;

use plan::{Plan, Refusal, Slot, TestedPlan, Time};
pub use prepared::{Prepared, prepare};

#[derive(Clone, Copy, Debug, PartialEq, Eq)]
pub enum Rule {
    One,
    Two,
    Three,
}

impl Rule {
    pub fn number(self) -> u8
        ensures { result ≡ rule_number self }
    {
        match self {
            Rule::One => 1,
            Rule::Two => 2,
            Rule::Three => 3,
        }
    }
}

// The two sides of a rule, which holds where left is less than right.
#[derive(Clone, Copy, Debug, PartialEq, Eq)]
pub struct Sides {
    pub left: u64,
    pub right: u64,
}

impl Sides {
    pub fn holds(self) -> bool
        ensures { result ≡ holds self }
    {
        self.left < self.right
    }
}

#[derive(Clone, Copy, Debug, PartialEq, Eq)]
pub struct Verdict {
    // M
    pub gap: Slot,
    pub one: Sides,
    pub two: Sides,
    pub three: Sides,
    // The first rule that fails; none where the plan is accepted.
    pub failed: Option<Rule>,
}

// How long so many ticks take. Every side of a rule is such a product, of at most a frame's ticks.
fn ticks_at(ticks: u64, time: Time) -> u64
    requires { (ticks ≤ 1044480) × (time.0 ≤ 2000000) }
    ensures { result ≡ ticks * time.0 }
{
    ticks * u64::from(time.0)
}

// The ticks of so many slots.
fn slots_ticks(plan: Plan, slots: Slot) -> u64
    requires { (slots.0 ≤ 4096) × (1 ≤ slots.0) }
    ensures { (result ≡ slots.0 * plan.ticks.0) × (plan.ticks.0 ≤ result) × (result ≤ 1044480) }
{
    u64::from(slots.0) * u64::from(plan.ticks.0)
}

// The sides by their ticks: so many of the longest on the left, so many of the shortest on the right.
fn sides_with(plan: TestedPlan, left: u64, right: u64) -> Sides
    requires { (left ≤ 1044480) × (right ≤ 1044480) }
    ensures { result ≡ sides_with plan.plan left right }
{
    Sides {
        left: ticks_at(left, plan.plan.max),
        right: ticks_at(right, plan.plan.min),
    }
}

// The two sides of a rule at the distance `gap`.
#[tactic(auto, unfolding(crate::specs::Rules::sides_at))]
fn sides_at(plan: TestedPlan, gap: Slot, rule: Rule) -> Sides
    requires { (1 ≤ gap.0) × (gap.0 < plan.plan.frame.0) }
    ensures { result ≡ sides_at plan.plan gap.0 rule }
{
    let ticks = slots_ticks(plan.plan, gap);
    let more = slots_ticks(plan.plan, Slot(gap.0 + 1));
    let slot = u64::from(plan.plan.ticks.0);
    let guard = u64::from(plan.plan.guard.0);
    let tail = u64::from(plan.plan.tail.0);
    match rule {
        Rule::One => sides_with(plan, ticks - guard, ticks - 1),
        Rule::Two => sides_with(plan, ticks, more - guard - 2),
        Rule::Three => sides_with(plan, slot - guard - tail, slot - guard - 1),
    }
}

#[tactic(auto, unfolding(crate::specs::Rules::failed_by))]
fn failed_by(one: Sides, two: Sides, three: Sides) -> Option<Rule>
    ensures { result ≡ failed_by one two three }
{
    if !one.holds() {
        return Some(Rule::One);
    }
    if !two.holds() {
        return Some(Rule::Two);
    }
    if !three.holds() {
        return Some(Rule::Three);
    }
    None
}

// The verdict of a tested plan with the gap M.
#[tactic(auto, using(gap::proofs::Bounds::gap_low, gap::proofs::Bounds::gap_below_frame), unfolding(crate::specs::Rules::verdict_at, crate::specs::Rules::verdict_of))]
pub fn verdict_tested(plan: TestedPlan, gap: Slot) -> Verdict
    requires { gap.0 ≡ gap_of plan.plan }
    ensures { result ≡ verdict_of plan.plan }
{
    let one = sides_at(plan, gap, Rule::One);
    let two = sides_at(plan, gap, Rule::Two);
    let three = sides_at(plan, gap, Rule::Three);
    Verdict {
        gap: gap,
        one: one,
        two: two,
        three: three,
        failed: failed_by(one, two, three),
    }
}

// The judge: any plan to its verdict, or to the first of refusals 1 to 9 that speaks against it.
#[tactic(auto, unfolding(crate::specs::Rules::judged_of))]
pub fn judge(plan: Plan) -> Result<Verdict, Refusal>
    ensures { result ≡ judged_of plan }
{
    let tested = plan.tested()?;
    Ok(prepare(tested).verdict)
}
