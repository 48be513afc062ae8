// Which groups of slots are open to a shape, and how its slots are found among them: every group, or those that the
// nested closures of random access windows leave.
ghost use Rattle.std.specs.Prelude.{Bool, ◌≡◌, ℕ, ◌^◌, ◌<◌};
ghost use Rattle.closures.specs.Closures.{clear};
ghost use Rattle.uplink.specs.declared.Shape.{Shape};
ghost use Rattle.uplink.specs.Fits.{Fits, OpenRepeats};
ghost use Rattle.uplink.specs.Timing.{slot_at};
ghost use Rattle.uplink.specs.Scaffold.{all_open};
ghost use Rattle.uplink.specs.Quick.{Searchable, active_index};

use super::{Shape, timing};
use closures::{Ends, Nested};

pub trait OpenGroups: Copy {
    // Group u is open.
    ghost is_open: { Self → ℕ → Bool };

    // What has to hold of the shape's slots for the search.
    ghost Searches: { Shape → Self → Type 0 };

    // Transmitted slot i.
    fn slot(self, s: Shape, i: u64) -> u64
        requires { Fits s × Searches s self × (i < 2 ^ 32) }
        ensures { result ≡ slot_at s (is_open self) i };

    // Transmitted slots 0 and i.
    fn ends(self, s: Shape, i: u64) -> Ends
        requires { Fits s × Searches s self × (i < 2 ^ 32) }
        ensures { (result.first ≡ slot_at s (is_open self) 0) × (result.last ≡ slot_at s (is_open self) i) };

    // If slot number x, counted from the first, may be sent: how many before it may.
    fn index(self, s: Shape, x: u64) -> Option<u64>
        requires { Fits s × Searches s self }
        ensures { result ≡ active_index s (is_open self) x };
}

// There is no window.
#[derive(Clone, Copy)]
pub struct AllOpen;

impl OpenGroups for AllOpen {
    ghost is_open = { λ _. all_open };

    ghost Searches = { λ _ _. Unit {0} };

    fn slot(self, s: Shape, i: u64) -> u64 {
        s.first + timing::active_at(s, i)
    }

    fn ends(self, s: Shape, i: u64) -> Ends {
        let first = s.first;
        Ends {
            first,
            last: first + timing::active_at(s, i),
        }
    }

    fn index(self, s: Shape, x: u64) -> Option<u64> {
        timing::active_index(s, x)
    }
}

impl OpenGroups for Nested {
    ghost is_open = { λ nested. clear nested.closures };

    ghost Searches = { λ s nested. OpenRepeats s (clear nested.closures) × Searchable s nested };

    fn slot(self, s: Shape, i: u64) -> u64 {
        timing::open_slot_at(s, self, timing::group_search(s, self), i)
    }

    fn ends(self, s: Shape, i: u64) -> Ends {
        timing::open_ends(s, self, timing::group_search(s, self), i)
    }

    fn index(self, s: Shape, x: u64) -> Option<u64> {
        timing::open_index(s, self, timing::group_search(s, self), x)
    }
}
