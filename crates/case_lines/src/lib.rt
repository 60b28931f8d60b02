// What the test programs share: the lines of a list of cases, and the plan and the run that a line tells. A case is a line: a name,
// a colon, and parts with a bar between them:
//
//     name: what is asked | N C n k0 g t min max | slots | slot of the last message | a node | another ..
//
// The last colon ends the name, and a space follows it. A node is its clock, slot, time since tick, mode (0 waiting, 1 about to
// send, 2 sending) and pending (1: yes). No number in the fourth part: none was sent. Places that a line tells nothing of are
// filled with numbers out of every range, 65535 in the slots and 255 65535 4294967295 2 1 in the nodes: they must not matter,
// and must stay.
#![tactic(auto)]

mod list;
mod numbers;
mod plans;
mod runs;

pub use list::{asked, each_case};
pub use numbers::number;
pub use plans::{plan_in, slots_in_order};
pub use runs::run_in;
