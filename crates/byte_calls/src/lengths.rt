// Lengths of two lent buffers, one of which says how long the other is.
ghost use Rattle.std.specs.Prelude.{◌≡◌, not, ◌*◌, eqb};

// Not 5 bytes for each answer.
pub fn counts_differ(steps: usize, answers: usize) -> bool
    ensures { result ≡ not (eqb steps (5 * answers)) }
{
    steps % 5 != 0 || steps / 5 != answers
}
