//! The values of one task's ports.

ghost use Rattle.std.specs.Prelude.{◌≡◌, ◌<◌, ◌≤◌, ◌↔◌, [], ◌∷◌, ◌++◌, length, IsTrue};

use crate::same::Same;
use arrayvec::ArrayVec;
use std::marker::Model;

/// The values of one task's inputs, outputs or states, in the order of declaration: at most 16.
/// They are stored in the value itself and need no other memory. Contracts see them as a list of
/// numbers.
#[derive(Drop)]
pub struct Values {
    list: ArrayVec<i64, 16>,
}

impl Model for Values {
    ghost use Rattle.std.specs.Prelude.{List, ℤ, ◌≤◌, length};

    ghost Value = { List ℤ };

    ghost view = { λ v. v.list.items };

    ghost invariant = { λ v. length v.list.items ≤ 16 };
}

impl Default for Values {
    ghost is_default = { λ v. v ≡ [] };

    fn default() -> Values {
        Values::new()
    }
}

impl Values {
    /// An empty list of values.
    pub fn new() -> Values
        ensures { result ≡ [] }
    {
        Values {
            list: ArrayVec::new(),
        }
    }

    /// Appends a value. There must be fewer than 16.
    pub fn push(&mut self, value: i64)
        requires { length self.old < 16 }
        ensures { self.new ≡ self.old ++ value ∷ [] }
    {
        self.list.push(value);
    }

    /// Replaces all values with these: at most 16.
    pub fn set(&mut self, values: &[i64])
        requires { length values.now ≤ 16 }
        ensures { self.new ≡ values.now }
    {
        match (self.list.as_mut_slice(), values) {
            ([], []) => {}
            ([own], [value]) => *own = *value,
            _ => self.begin_with(values),
        }
    }

    fn begin_with(&mut self, values: &[i64])
        requires { length values.now ≤ 16 }
        ensures { self.new ≡ values.now }
    {
        self.list = ArrayVec::new();
        match self.list.try_extend_from_slice(values) {
            Ok(()) => {}
            Err(_) => unreachable!(),
        }
    }

    /// The number of values: at most 16.
    pub fn len(&self) -> usize
        ensures value { result ≡ length self.now }
        ensures fits { length self.now ≤ 16 }
    {
        self.list.len()
    }

    /// Whether there is no value.
    pub fn is_empty(&self) -> bool
        ensures { IsTrue result ↔ (length self.now ≡ 0) }
    {
        self.list.is_empty()
    }

    /// The values, in their order: at most 16.
    pub fn as_slice(&self) -> &[i64]
        ensures value { result.now ≡ self.now }
        ensures fits { length self.now ≤ 16 }
    {
        self.list.as_slice()
    }

    /// A copy of the values.
    pub fn copy(&self) -> Values
        ensures { result ≡ self.now }
    {
        let mut copy = Values::new();
        copy.set(self.as_slice());
        copy
    }
}

impl Same for Values {
    fn is_same(&self, other: &Values) -> bool {
        self.as_slice() == other.as_slice()
    }
}
