// The two sides of a challenge.
ghost use Rattle.std.specs.Prelude.{◌≤◌};

use recency::Capacity;

// A policy with so many places beside a schedule with h, for so many rounds. A type of its own: a challenge says the same of its k and h, but
// has numbers of its progress too, and is begun on a row that is not made yet.
#[derive(Clone, Copy)]
pub(crate) struct Sides {
    pub(crate) capacity: Capacity,
    pub(crate) h: usize,
    pub(crate) rounds: u16,
    ghost low: { 1 ≤ h },
    ghost within: { h ≤ capacity.places },
}
