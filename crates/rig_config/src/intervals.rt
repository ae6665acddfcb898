//! Intervals of values.

ghost use Rattle.std.specs.Prelude.{◌≡◌, IsTrue};
ghost use Rattle.rig_config.specs.Intervals.{clamped, from_to, is_in_order, is_whole, whole};

use std::marker::Model;

/// The bounds of an offer's values: a least and a greatest value, both included. The least is never above the greatest.
#[derive(Drop)]
pub struct Bounds {
    low: i64,
    high: i64,
}

impl Model for Bounds {
    ghost use Rattle.std.specs.Prelude.{IsTrue};
    ghost use Rattle.rig_config.specs.Intervals.{Interval, is_in_order};

    ghost Value = { Interval };

    ghost view = { λ b. record { low = b.low; high = b.high } };

    ghost invariant = { λ b. IsTrue (is_in_order (record { low = b.low; high = b.high })) };
}

impl Bounds {
    /// From `low` to `high`, or `None` if `low` is above `high`. Takes no memory, like all calls of this type.
    pub fn new(low: i64, high: i64) -> Option<Bounds>
        ensures { result ≡ from_to low high }
    {
        if low > high {
            return None;
        }
        Some(Bounds { low, high })
    }

    /// All values: from `i64::MIN` to `i64::MAX`.
    pub fn whole() -> Bounds
        ensures { result ≡ whole }
    {
        Bounds {
            low: i64::MIN,
            high: i64::MAX,
        }
    }

    /// The least value.
    pub fn low(&self) -> i64
        ensures value { result ≡ self.now.low }
        ensures kept { IsTrue (is_in_order self.now) }
    {
        self.low
    }

    /// The greatest value.
    pub fn high(&self) -> i64
        ensures value { result ≡ self.now.high }
        ensures kept { IsTrue (is_in_order self.now) }
    {
        self.high
    }

    /// Whether all values are within these bounds.
    pub fn is_whole(&self) -> bool
        ensures { result ≡ is_whole self.now }
    {
        self.low <= i64::MIN && i64::MAX <= self.high
    }

    /// Equal bounds.
    pub fn copy(&self) -> Bounds
        ensures { result ≡ self.now }
    {
        Bounds {
            low: self.low,
            high: self.high,
        }
    }
}

/// The value itself, or `low` if it is below `low`, or `high` if it is above `high`. Takes no memory.
pub fn clamped(value: i64, low: i64, high: i64) -> i64
    ensures { result ≡ clamped (record { low = low; high = high }) value }
{
    if value < low {
        low
    } else if high < value {
        high
    } else {
        value
    }
}
