// A place of a shown run in bytes: a run, then the mark.
ghost use Rattle.std.specs.Prelude.{◌≡◌, ◌≤◌};
ghost use Rattle.answer_bytes.specs.Places.{mark_byte, mark_in, place_in, place_bytes, place_wrong};

use run_bytes::{read_run, spells_no_run, write_run};
use shown::{Mark, Place};

// A mark's byte, and back. (No `From`: it would stand with the type, in a crate that knows nothing of bytes.)
fn mark_byte(mark: Mark) -> u8
    ensures { result ≡ mark_byte mark }
{
    match mark {
        Mark::Before => 0,
        Mark::In => 1,
        Mark::After => 2,
    }
}

#[tactic(auto, unfolding(crate::specs::Places::mark_in))]
fn mark_in(byte: u8) -> Mark
    ensures { result ≡ mark_in byte }
{
    match byte {
        0 => Mark::Before,
        1 => Mark::In,
        _ => Mark::After,
    }
}

// (`nodes ≤ 32` is asked by clause, as in `run_bytes`.)
#[tactic(auto, using(laws::proofs::Bools::or_true_left), unfolding(crate::specs::Places::place_wrong))]
pub fn place_wrong(bytes: &[u8; 292], nodes: usize) -> bool
    requires { nodes ≤ 32 }
    ensures { result ≡ place_wrong nodes bytes.now }
{
    spells_no_run(bytes, nodes) || 2 < bytes[291]
}

#[tactic(auto, unfolding(crate::specs::Places::place_in))]
pub fn read_place(bytes: &[u8; 292], nodes: usize) -> Place
    requires { nodes ≤ 32 }
    ensures { result ≡ place_in nodes bytes.now }
{
    Place {
        run: read_run(bytes, nodes),
        mark: mark_in(bytes[291]),
    }
}

#[tactic(auto, unfolding(crate::specs::Places::place_bytes))]
pub fn write_place(bytes: &mut [u8; 292], nodes: usize, place: Place)
    requires { nodes ≤ 32 }
    ensures { bytes.new ≡ place_bytes nodes place bytes.old }
{
    write_run(bytes, nodes, place.run);
    bytes[291] = mark_byte(place.mark);
}
