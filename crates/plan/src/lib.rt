// The numbers of a plan, each kind of number a type of its own, and refusals 1 to 9.
#![tactic(auto)]

mod refusal;
mod tested;
mod tests;

pub use refusal::Refusal;
pub use tested::TestedPlan;

// A clock, or a count of its ticks.
#[derive(Clone, Copy, Debug, PartialEq, Eq, PartialOrd, Ord)]
pub struct Tick(pub u8);

// A slot of the frame, or a count of slots.
#[derive(Clone, Copy, Debug, PartialEq, Eq, PartialOrd, Ord)]
pub struct Slot(pub u16);

// A node, or a count of nodes.
#[derive(Clone, Copy, Debug, PartialEq, Eq, PartialOrd, Ord)]
pub struct Node(pub u32);

// Real time, in the plan's own units.
#[derive(Clone, Copy, Debug, PartialEq, Eq, PartialOrd, Ord)]
pub struct Time(pub u32);

// A plan as it is handed in, tested or not. Places of `slots` from `nodes` on mean nothing. (32 places and N, since nothing is on a heap.)
#[derive(Clone, Copy, Debug)]
pub struct Plan {
    // N
    pub nodes: Node,
    // C
    pub frame: Slot,
    // n
    pub active: Slot,
    // k0
    pub ticks: Tick,
    // g
    pub guard: Tick,
    // t
    pub tail: Tick,
    // shortest time between two ticks
    pub min: Time,
    // longest time between two ticks
    pub max: Time,
    // the sending slot of each node
    pub slots: [Slot; 32],
}
