// Refusals 1 to 9, in three parts of the table.
ghost use Rattle.std.specs.Prelude.{◌≡◌, ◌≤◌, ◌<◌};
ghost use Rattle.std.specs.Result.{result_err};
ghost use Rattle.laws.specs.Row.{first_given, outside};
ghost use Rattle.plan.specs.Sending.{sends_below};
ghost use Rattle.plan.specs.Tested.{is_active_outside, is_guard_or_tail_wrong, is_min_or_max_wrong, shares_slot, some_not_active, some_shared, frame_rows, ticks_rows, slot_rows};

use crate::{Plan, Refusal, Slot, Time};

fn is_outside(low: u32, high: u32, x: u32) -> bool
    ensures { result ≡ outside low high x }
{
    x < low || high < x
}

#[tactic(auto, unfolding(crate::specs::Tested::is_active_outside))]
fn active_outside(plan: Plan) -> bool
    ensures { result ≡ is_active_outside plan }
{
    plan.active == Slot(0) || plan.frame < plan.active
}

#[tactic(auto, unfolding(crate::specs::Tested::is_guard_or_tail_wrong))]
fn guard_or_tail_wrong(plan: Plan) -> bool
    ensures { result ≡ is_guard_or_tail_wrong plan }
{
    plan.guard.0 == 0
        || plan.tail.0 == 0
        || (plan.ticks.0 as u32) < plan.guard.0 as u32 + plan.tail.0 as u32 + 2
}

#[tactic(auto, unfolding(crate::specs::Tested::is_min_or_max_wrong))]
fn min_or_max_wrong(plan: Plan) -> bool
    ensures { result ≡ is_min_or_max_wrong plan }
{
    plan.min == Time(0) || plan.max < plan.min || Time(2000000) < plan.max
}

// A sending slot is n or more. (N ≤ 32 is asked by clause: these are the tests that a `TestedPlan` is made by.)
fn some_not_active(plan: Plan) -> bool
    requires { plan.nodes.0 ≤ 32 }
    ensures { result ≡ some_not_active plan }
{
    plan.slots[..plan.nodes.0 as usize]
        .iter()
        .any(|own| plan.active <= *own)
}

// Some node below count sends in the slot. (All are asked, with no way out, so that several are compared at a time.)
fn sends_below(plan: Plan, count: usize, slot: Slot) -> bool
    requires { count ≤ 32 }
    ensures { result ≡ sends_below plan count slot.0 }
{
    let mut found = false;
    for own in &plan.slots[..count] {
        found |= *own == slot;
    }
    found
}

// Node i sends in the slot of a node before it.
#[tactic(auto, unfolding(crate::specs::Tested::shares_slot))]
fn shares_slot(plan: Plan, i: usize) -> bool
    requires { i < 32 }
    ensures { result ≡ shares_slot plan i }
{
    sends_below(plan, i, plan.slots[i])
}

fn some_shared(plan: Plan) -> bool
    requires { plan.nodes.0 ≤ 32 }
    ensures { result ≡ some_shared plan }
{
    (0..plan.nodes.0 as usize).any(|i| shares_slot(plan, i))
}

// 1 to 3: the nodes and the frame.
#[tactic(auto, unfolding(laws::specs::Row::first_given))]
pub fn frame_tested(plan: Plan) -> Result<(), Refusal>
    ensures { result_err result ≡ first_given (frame_rows plan) }
{
    if is_outside(3, 32, plan.nodes.0) {
        return Err(Refusal::NodesOutside);
    }
    if is_outside(3, 4096, plan.frame.0 as u32) {
        return Err(Refusal::FrameOutside);
    }
    if active_outside(plan) {
        return Err(Refusal::ActiveOutside);
    }
    Ok(())
}

// 4 to 6: the ticks and the time between them.
#[tactic(auto, unfolding(laws::specs::Row::first_given))]
pub fn ticks_tested(plan: Plan) -> Result<(), Refusal>
    ensures { result_err result ≡ first_given (ticks_rows plan) }
{
    if is_outside(4, 255, plan.ticks.0 as u32) {
        return Err(Refusal::TicksOutside);
    }
    if guard_or_tail_wrong(plan) {
        return Err(Refusal::GuardOrTailWrong);
    }
    if min_or_max_wrong(plan) {
        return Err(Refusal::MinOrMaxWrong);
    }
    Ok(())
}

// 7 to 9: the sending slots.
#[tactic(auto, unfolding(laws::specs::Row::first_given, crate::specs::Sending::sends))]
pub fn slots_tested(plan: Plan) -> Result<(), Refusal>
    requires { plan.nodes.0 ≤ 32 }
    ensures { result_err result ≡ first_given (slot_rows plan) }
{
    if some_not_active(plan) {
        return Err(Refusal::SlotNotActive);
    }
    if some_shared(plan) {
        return Err(Refusal::SlotShared);
    }
    if !sends_below(plan, plan.nodes.0 as usize, Slot(0)) {
        return Err(Refusal::Slot0Silent);
    }
    Ok(())
}
