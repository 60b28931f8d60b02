// A plan as a line of cases tells it: its numbers are part 1, its slots part 2.
use crate::numbers::number;
use plan::{Node, Plan, Slot, Tick, Time};
use std::array;

// Of a line's number as many low bits as a clock or a slot has. (No `From`: of any number it would be wrong.)
pub fn tick(n: u32) -> Tick {
    Tick((n % 256) as u8)
}

pub fn slot(n: u32) -> Slot {
    Slot((n % 65536) as u16)
}

// Node i in slot i, and a spare slot in the places that no node has.
pub fn slots_in_order(nodes: Node, spare: Slot) -> [Slot; 32] {
    array::from_fn(|place| {
        let place = place as u32;
        if place < nodes.0 { slot(place) } else { spare }
    })
}

// A number of the plan that a line leaves out is 0, and a slot 65535.
pub fn plan_in(parts: &[u8]) -> Plan {
    let told = |k| number(parts, 1, k).unwrap_or(0);
    Plan {
        nodes: Node(told(0)),
        frame: slot(told(1)),
        active: slot(told(2)),
        ticks: tick(told(3)),
        guard: tick(told(4)),
        tail: tick(told(5)),
        min: Time(told(6)),
        max: Time(told(7)),
        slots: array::from_fn(|place| slot(number(parts, 2, place).unwrap_or(65535))),
    }
}
