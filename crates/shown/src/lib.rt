// The run shown for a plan that fails a rule: its places, and where it begins.
#![tactic(auto)]

mod showing;

ghost use Rattle.std.specs.Prelude.{◌≡◌};
ghost use Rattle.shown.specs.Shown.{fresh_place, place_of};

use plan::{Node, Slot};
use run::{Run, Step, fresh};
pub use showing::Showing;

// Before, in or after the pivot.
#[derive(Clone, Copy, Debug, PartialEq, Eq)]
pub enum Mark {
    Before,
    In,
    After,
}

// A place in a shown run, which the caller hands back for the next step.
#[derive(Clone, Copy, Debug)]
pub struct Place {
    pub run: Run,
    pub mark: Mark,
}

// Who plays which part: the slot p, the node that sends in it, and the fast node.
#[derive(Clone, Copy, Debug)]
pub struct Parts {
    pub p: Slot,
    pub sender: Node,
    pub fast: Node,
}

// The next step, and the place after it.
#[derive(Clone, Copy, Debug)]
pub struct Given {
    pub step: Step,
    pub place: Place,
}

// Where a shown run begins: a fresh run, before the pivot.
#[tactic(auto, unfolding(crate::specs::Shown::fresh_place))]
pub fn fresh_place() -> Place
    ensures { result ≡ fresh_place }
{
    Place {
        run: fresh(),
        mark: Mark::Before,
    }
}

// The place alone, without the plan and the parts.
impl From<Showing> for Place {
    ghost from_gives = { λ showing place. place ≡ place_of showing };

    fn from(showing: Showing) -> Place {
        Place {
            run: showing.run.run,
            mark: showing.mark,
        }
    }
}
