// A run: its state, fresh, and in range. Steps and answers are types here, and code in the crates above.
#![tactic(auto)]

mod modes;
mod range;
mod tested;

ghost use Rattle.std.specs.Prelude.{◌≡◌};
ghost use Rattle.run.specs.State.{fresh_run};

use plan::{Node, Slot, Tick, Time};
pub use range::in_range;
pub use tested::TestedRun;

#[derive(Clone, Copy, Debug, PartialEq, Eq)]
pub enum Mode {
    Waiting,
    AboutToSend,
    Sending,
}

#[derive(Clone, Copy, Debug)]
pub struct NodeState {
    pub clock: Tick,
    pub slot: Slot,
    // time since its own last tick
    pub time: Time,
    pub mode: Mode,
    // a message is pending
    pub pending: bool,
}

// A run as it is handed in, tested or not. Places of `nodes` from N on are never tested and never change.
#[derive(Clone, Copy, Debug)]
pub struct Run {
    pub nodes: [NodeState; 32],
    // the slot of the last message, if one was sent
    pub last: Option<Slot>,
}

#[derive(Clone, Copy, Debug, PartialEq, Eq)]
pub enum Step {
    Delay(Time),
    TickOf(Node),
    SendOf(Node),
}

// A run is out of step: the lowest sending node with a node elsewhere, and the lowest such node.
#[derive(Clone, Copy, Debug, PartialEq, Eq)]
pub struct Apart {
    pub sending: Node,
    pub elsewhere: Node,
}

// A count of ticks: a node's reckoning.
#[derive(Clone, Copy, Debug, PartialEq, Eq)]
pub struct Ticks(pub u32);

// A run at its beginning: all numbers 0, all waiting, nothing pending, none sent.
#[tactic(auto, unfolding(crate::specs::State::fresh_run))]
pub fn fresh() -> Run
    ensures { result ≡ fresh_run }
{
    let node = NodeState {
        clock: Tick(0),
        slot: Slot(0),
        time: Time(0),
        mode: Mode::Waiting,
        pending: false,
    };
    Run {
        nodes: [node; 32],
        last: None,
    }
}
