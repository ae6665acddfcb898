//! The places of a run: each instant, and the commands between any two instants.

ghost use Rattle.std.specs.Prelude.{◌≡◌, ◌+◌, ◌*◌, ◌-◌, ◌^◌, ◌<◌, ◌↔◌, IsTrue, max, min};

use std::marker::Model;

/// A place of a run, in half ticks. Instant N is at `2 N + 1`; the commands before it are half a tick earlier.
#[derive(Clone, Copy, Debug, PartialEq, Eq)]
pub struct Place(u64);

impl Model for Place {
    ghost use Rattle.std.specs.Prelude.{ℕ};

    ghost Value = { ℕ };

    ghost view = { λ p. p.0 };

    ghost inverse = { λ n. record { 0 = n } };
}

impl Place {
    /// Where a run begins: before instant 0.
    pub fn begin() -> Place
        ensures { result ≡ 0 }
    {
        Place(0)
    }

    /// The place of the instant of this number.
    pub fn of_instant(number: u64) -> Place
        ensures { result ≡ min (min (2 * number) (2 ^ 64 - 1) + 1) (2 ^ 64 - 1) }
    {
        Place(number.saturating_mul(2).saturating_add(1))
    }

    /// The place of the commands before the instant of this number.
    pub fn before_instant(number: u64) -> Place
        ensures { result ≡ min (2 * number) (2 ^ 64 - 1) }
    {
        Place(number.saturating_mul(2))
    }

    /// The number of half ticks since the beginning.
    pub(crate) fn half_ticks(self) -> u64
        ensures { result ≡ self }
    {
        self.0
    }

    /// Whether it is before another.
    pub(crate) fn is_before(self, other: Place) -> bool
        ensures { IsTrue result ↔ (self < other) }
    {
        self.0 < other.0
    }

    /// The later of two places.
    pub(crate) fn later(self, other: Place) -> Place
        ensures { result ≡ max self other }
    {
        Place(self.0.max(other.0))
    }

    /// The earlier of two places.
    pub(crate) fn earlier(self, other: Place) -> Place
        ensures { result ≡ min self other }
    {
        Place(self.0.min(other.0))
    }
}
