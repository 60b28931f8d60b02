// What the exported calls do once the plan in the file is taken and every lent buffer has the right length; and what takes the
// plan, and the test of steps against their answers.
#![tactic(auto)]

mod lengths;
mod many;
mod runs;
mod shown_runs;
mod spelling;
mod taking;
mod verdicts;

pub use lengths::counts_differ;
pub use many::steps_on;
pub use runs::{apart_on, reckon_on, step_on};
pub use shown_runs::next_on;
pub use taking::taken_from;
pub use verdicts::verdict_by;
