// What a tick, a delay and a send make of a node and of the run.
#![tactic(auto)]

ghost use Rattle.std.specs.Prelude.{◌≡◌, true, ℕ, ◌+◌, ◌≤◌, ◌<◌};
ghost use Rattle.run.specs.State.{node, node_in_range};
ghost use Rattle.run.specs.Moves.{clock_after, mode_after, slot_after, node_ticked, ticked, node_delayed, delayed, node_sent, node_hearing, node_at_send, sent};

use plan::{Node, Slot, TestedPlan, Tick, Time};
use run::{Mode, NodeState, Run, TestedRun};

// The clock after a tick on clock c0: g + 1 if a message was pending, otherwise one more, modulo k0.
#[tactic(auto, unfolding(run::specs::Moves::clock_after))]
fn clock_after(plan: TestedPlan, pending: bool, c0: Tick) -> Tick
    requires { c0.0 < plan.plan.ticks.0 }
    ensures { result.0 ≡ clock_after plan.plan pending c0.0 }
{
    if pending {
        return Tick(plan.plan.guard.0 + 1);
    }
    Tick((c0.0 + 1) % plan.plan.ticks.0)
}

// The mode after it. Waiting in its own slot with c0 = g − 1: about to send. Sending with c0 = k0 − t − 1: waiting. (Clocks by number
// where a tick less is counted, here and below.)
#[tactic(auto, unfolding(run::specs::Moves::mode_after))]
fn mode_after(plan: TestedPlan, own: Slot, c0: Tick, slot: Slot, mode: Mode) -> Mode
    ensures { result ≡ mode_after plan.plan own.0 c0.0 slot.0 mode }
{
    let plan = plan.plan;
    match mode {
        Mode::Waiting if slot == own && c0.0 == plan.guard.0 - 1 => Mode::AboutToSend,
        Mode::Sending if c0.0 == plan.ticks.0 - plan.tail.0 - 1 => Mode::Waiting,
        _ => mode,
    }
}

// The slot number after it. Waiting with c0 = k0 − 1: one more, modulo C.
#[tactic(auto, unfolding(run::specs::Moves::slot_after))]
fn slot_after(plan: TestedPlan, c0: Tick, slot: Slot, mode: Mode) -> Slot
    requires { slot.0 < plan.plan.frame.0 }
    ensures { result.0 ≡ slot_after plan.plan c0.0 slot.0 mode }
{
    let plan = plan.plan;
    match mode {
        Mode::Waiting if c0.0 == plan.ticks.0 - 1 => Slot((slot.0 + 1) % plan.frame.0),
        _ => slot,
    }
}

// All decided on the clock before the tick, the pending mark cleared. (That the node is in range is asked by clause: it is one of a
// `TestedRun`'s, and a type for it would stand with no maker but an index.)
#[tactic(auto, using(run::proofs::Ranges::within_node))]
fn node_ticked(plan: TestedPlan, own: Slot, node: NodeState) -> NodeState
    requires { node_in_range plan.plan node ≡ true }
    ensures { result ≡ node_ticked plan.plan own.0 node }
{
    let clock = clock_after(plan, node.pending, node.clock);
    NodeState {
        clock: clock,
        slot: slot_after(plan, node.clock, node.slot, node.mode),
        time: Time(0),
        mode: mode_after(plan, own, node.clock, node.slot, node.mode),
        pending: false,
    }
}

#[tactic(auto, using(run::proofs::Ranges::node_within, run::proofs::Ranges::range_node))]
pub fn ticked(run: TestedRun, i: Node) -> Run
    requires { i.0 < run.plan.plan.nodes.0 }
    ensures { result ≡ ticked run.plan.plan i.0 run.run }
{
    let k = i.0 as usize;
    let mut next = run.run;
    next.nodes[k] = node_ticked(run.plan, run.plan.plan.slots[k], next.nodes[k]);
    next
}

fn node_delayed(node: NodeState, d: Time) -> NodeState
    requires { node.time.0 + d.0 < 4294967296 }
    ensures { result ≡ node_delayed d.0 node }
{
    NodeState {
        time: Time(node.time.0 + d.0),
        ..node
    }
}

#[tactic(auto, using(laws::proofs::Overs::over_none))]
pub fn delayed(plan: TestedPlan, run: Run, d: Time) -> Run
    requires { (i : ℕ) → i < plan.plan.nodes.0 → (node run i).time.0 + d.0 ≤ plan.plan.max.0 }
    ensures { result ≡ delayed plan.plan d.0 run }
{
    let n = plan.plan.nodes.0 as usize;
    let mut nodes = run.nodes;
    for node in nodes[..n].iter_mut() {
        *node = node_delayed(*node, d);
    }
    Run {
        nodes: nodes,
        last: run.last,
    }
}

fn node_sent(node: NodeState) -> NodeState
    ensures { result ≡ node_sent node }
{
    NodeState {
        mode: Mode::Sending,
        ..node
    }
}

// A sleeping node, whose slot number is n or above, does not hear.
fn node_hearing(plan: TestedPlan, node: NodeState) -> NodeState
    ensures { result ≡ node_hearing plan.plan node }
{
    NodeState {
        pending: node.pending || node.slot < plan.plan.active,
        ..node
    }
}

// Node k after node i sends: a sender does not hear itself.
fn node_at_send(plan: TestedPlan, i: usize, k: usize, node: NodeState) -> NodeState
    ensures { result ≡ node_at_send plan.plan i k node }
{
    if k == i {
        return node_sent(node);
    }
    node_hearing(plan, node)
}

#[tactic(auto, using(laws::proofs::Overs::over_none))]
pub fn sent(plan: TestedPlan, run: Run, i: Node) -> Run
    requires { i.0 < plan.plan.nodes.0 }
    ensures { result ≡ sent plan.plan i.0 run }
{
    let n = plan.plan.nodes.0 as usize;
    let sender = i.0 as usize;
    let mut nodes = run.nodes;
    for (k, node) in nodes[..n].iter_mut().enumerate() {
        *node = node_at_send(plan, sender, k, *node);
    }
    Run {
        nodes: nodes,
        last: Some(run.nodes[sender].slot),
    }
}
