// A place of a run that is shown: of a tested plan and run, with the parts that are played in it.
ghost use Rattle.std.specs.Prelude.{◌<◌};

use crate::{Mark, Parts};
use run::TestedRun;

#[derive(Clone, Copy, Debug)]
pub struct Showing {
    pub run: TestedRun,
    pub parts: Parts,
    pub mark: Mark,
    pub ghost sender_is_a_node: { parts.sender.0 < run.plan.plan.nodes.0 },
}
