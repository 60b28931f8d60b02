// Refusals, and their numbers; specs/Refusals.antt is the same table for contracts.
ghost use Rattle.std.specs.Prelude.{◌≡◌};
ghost use Rattle.plan.specs.Refusals.{number_of};

use std::error::Error;
use std::fmt;

// In the order of the tests.
#[derive(Clone, Copy, Debug, PartialEq, Eq)]
pub enum Refusal {
    NotAPlanFile,
    VersionUnknown,
    LengthWrong,
    NodesOutside,
    FrameOutside,
    ActiveOutside,
    TicksOutside,
    GuardOrTailWrong,
    MinOrMaxWrong,
    SlotNotActive,
    SlotShared,
    Slot0Silent,
    LineWrong,
    RunOutside,
    OutOfStep,
    NodeUnknown,
    TickTooEarly,
    DelayBeforeSend,
    DelayWrong,
    NotAboutToSend,
    ReckoningBelow0,
}

impl Refusal {
    // Its number in document 01's table.
    pub fn number(self) -> u8
        ensures { result ≡ number_of self }
    {
        match self {
            Refusal::NotAPlanFile => 20,
            Refusal::VersionUnknown => 21,
            Refusal::LengthWrong => 22,
            Refusal::NodesOutside => 1,
            Refusal::FrameOutside => 2,
            Refusal::ActiveOutside => 3,
            Refusal::TicksOutside => 4,
            Refusal::GuardOrTailWrong => 5,
            Refusal::MinOrMaxWrong => 6,
            Refusal::SlotNotActive => 7,
            Refusal::SlotShared => 8,
            Refusal::Slot0Silent => 9,
            Refusal::LineWrong => 19,
            Refusal::RunOutside => 10,
            Refusal::OutOfStep => 11,
            Refusal::NodeUnknown => 12,
            Refusal::TickTooEarly => 13,
            Refusal::DelayBeforeSend => 15,
            Refusal::DelayWrong => 14,
            Refusal::NotAboutToSend => 16,
            Refusal::ReckoningBelow0 => 17,
        }
    }
}

impl fmt::Display for Refusal {
    fn fmt<W: fmt::Write>(&self, f: &mut fmt::Formatter<W>) -> fmt::Result {
        write!(f, "refused {}", self.number())
    }
}

impl Error for Refusal {}
