// A run as a line of cases tells it: the last message is part 3, node i is part 4 + i.
use crate::numbers::number;
use crate::plans::{slot, tick};
use plan::{Slot, Time};
use run::{Mode, NodeState, Run};
use std::array;

// By its number in a line; what is no mode's counts as sending.
fn mode_by(n: u32) -> Mode {
    match n {
        0 => Mode::Waiting,
        1 => Mode::AboutToSend,
        _ => Mode::Sending,
    }
}

fn node_in(parts: &[u8], part: usize) -> NodeState {
    NodeState {
        clock: tick(number(parts, part, 0).unwrap_or(255)),
        slot: slot(number(parts, part, 1).unwrap_or(65535)),
        time: Time(number(parts, part, 2).unwrap_or(4294967295)),
        mode: mode_by(number(parts, part, 3).unwrap_or(2)),
        pending: number(parts, part, 4).unwrap_or(1) == 1,
    }
}

// A part with no number says that none was sent; so does 65536, which is one above any slot.
fn last_in(parts: &[u8]) -> Option<Slot> {
    number(parts, 3, 0).filter(|n| *n != 65536).map(slot)
}

pub fn run_in(parts: &[u8]) -> Run {
    Run {
        nodes: array::from_fn(|i| node_in(parts, 4usize.wrapping_add(i))),
        last: last_in(parts),
    }
}
