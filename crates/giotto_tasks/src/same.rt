//! Comparison of values as contracts see them.

ghost use Rattle.std.specs.Prelude.{◌≡◌, ◌↔◌, IsTrue};

use crate::names::Name;

/// Values that can be compared as contracts see them.
pub trait Same {
    /// Whether both are equal. Takes no memory.
    fn is_same(&self, other: &Self) -> bool
        ensures { IsTrue result ↔ self.now ≡ other.now };
}

/// Whether both lists have equal elements, in the same order.
pub fn all_same<T: Same>(ones: &[T], others: &[T]) -> bool
    ensures { IsTrue result ↔ ones.now ≡ others.now }
{
    if ones.len() != others.len() {
        return false;
    }
    for i in 0..ones.len() {
        if !ones[i].is_same(&others[i]) {
            return false;
        }
    }
    true
}

/// Whether both are missing, or both there and equal.
pub fn is_same_option<T: Same>(one: &Option<T>, other: &Option<T>) -> bool
    ensures { IsTrue result ↔ one.now ≡ other.now }
{
    match (one, other) {
        (Some(one), Some(other)) => one.is_same(other),
        (None, None) => true,
        _ => false,
    }
}

impl Same for i64 {
    fn is_same(&self, other: &i64) -> bool {
        self == other
    }
}

impl Same for usize {
    fn is_same(&self, other: &usize) -> bool {
        self == other
    }
}

impl Same for Name {
    fn is_same(&self, other: &Name) -> bool {
        self == other
    }
}
