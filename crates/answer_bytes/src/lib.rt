// Answers, verdicts, steps and places of a shown run as numbers and bytes, for callers that keep them in memory of their own.
#![tactic(auto)]

mod answers;
mod forms;
mod places;
mod verdicts;

pub use answers::{Unanswered, answer_number};
pub use forms::{apart_form, step_form, ticks_form};
pub use places::{place_wrong, read_place, write_place};
pub use verdicts::verdict_form;
