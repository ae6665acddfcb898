//! What is granted through a bind.

ghost use Rattle.std.specs.Prelude.{◌≡◌, ◌≤◌, None, length};

use arrayvec::ArrayVec;
use std::marker::Model;

/// The value that is granted through a bind, if there is one, and the places where the bind's names were found last. Contracts see
/// only the value.
#[derive(Drop)]
pub struct Granted {
    value: Option<i64>,
    hints: Hints,
    sensor: usize,
}

impl Model for Granted {
    ghost use Rattle.std.specs.Prelude.{Option, ℤ};

    ghost Value = { Option ℤ };

    ghost view = { λ g. g.value };
}

impl Default for Granted {
    ghost use Rattle.std.specs.Prelude.{◌≡◌, None};

    ghost is_default = { λ g. g ≡ None };

    fn default() -> Granted {
        Granted::nothing()
    }
}

/// The places where the supplier's side of a bind was found last, counted from 0. The caller that takes a hint compares the name at
/// that place, and searches for the name if another one is there. So contracts say nothing about hints.
#[derive(Clone, Copy)]
pub struct Hints {
    /// The supplier's offer, among its offers.
    pub offer: usize,
    /// The supplier's actuator, among those of its program.
    pub actuator: usize,
}

impl Granted {
    /// Nothing is granted, and no name was found yet.
    pub fn nothing() -> Granted
        ensures { result ≡ None }
    {
        let hints = Hints {
            offer: 0,
            actuator: 0,
        };
        Granted {
            value: None,
            hints,
            sensor: 0,
        }
    }

    /// This value is granted, if there is one, and no name was found yet.
    pub fn of(value: Option<i64>) -> Granted
        ensures { result ≡ value }
    {
        let mut granted = Granted::nothing();
        granted.value = value;
        granted
    }

    /// The granted value, if there is one.
    #[inline(always)]
    pub fn value(&self) -> Option<i64>
        ensures { result ≡ self.now }
    {
        self.value
    }

    /// Where the supplier's side was found last.
    #[inline(always)]
    pub fn hints(&self) -> Hints {
        self.hints
    }

    /// Notes what is granted, and where the supplier's side was found.
    #[inline(always)]
    pub fn note(&mut self, value: Option<i64>, hints: Hints)
        ensures { self.new ≡ value }
    {
        self.value = value;
        self.hints = hints;
    }

    /// Where the bound sensor was found last among the sensors of its program. This is a hint too.
    #[inline(always)]
    pub fn sensor_hint(&self) -> usize {
        self.sensor
    }

    /// Notes where the sensor was found.
    #[inline(always)]
    pub fn note_sensor(&mut self, place: usize)
        ensures { self.new ≡ self.old }
    {
        self.sensor = place;
    }
}

/// A `Granted` for each of these values, at most 64. Takes no memory.
pub fn places_of(granted: &[Option<i64>]) -> ArrayVec<Granted, 64>
    requires { length granted.now ≤ 64 }
    ensures { result.items ≡ granted.now }
{
    let mut places = ArrayVec::new();
    for value in granted {
        places.push(Granted::of(*value));
    }
    places
}

/// A `Granted` for each of 1,024 binds, through which nothing is granted. Takes no memory.
///
/// That is enough for 16 tenants with 64 binds each.
pub fn empty_places() -> ArrayVec<Granted, 1024>
    ensures { length result.items ≡ 1024 }
{
    let mut places = ArrayVec::new();
    for _place in 0..1024usize {
        places.push(Granted::nothing());
    }
    places
}
