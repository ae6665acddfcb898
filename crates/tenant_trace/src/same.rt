//! Comparison of records.

ghost use Rattle.std.specs.Prelude.{◌≡◌, ◌↔◌, IsTrue};

use crate::records::{Happening, Record};
use giotto_tasks::names::Name;
use giotto_tasks::same::Same;

fn is_same_at(one: &Name, value: i64, other: &Name, others: i64) -> bool
    ensures { IsTrue result ↔ ((one.now ≡ other.now) × (value ≡ others)) }
{
    if value != others {
        return false;
    }
    one.is_same(other)
}

impl Same for Happening {
    fn is_same(&self, other: &Happening) -> bool {
        match (self, other) {
            (Happening::Start(one), Happening::Start(other)) => one.is_same(other),
            (Happening::Mode(one), Happening::Mode(other)) => one.is_same(other),
            (Happening::Act(one, value), Happening::Act(other, others)) => {
                is_same_at(one, *value, other, *others)
            }
            (Happening::Out(one, value), Happening::Out(other, others)) => {
                is_same_at(one, *value, other, *others)
            }
            (Happening::Asked, Happening::Asked) => true,
            (Happening::Overrun(one), Happening::Overrun(other)) => one.is_same(other),
            (Happening::Replaced(one), Happening::Replaced(other)) => one.is_same(other),
            _ => false,
        }
    }
}

impl Same for Record {
    fn is_same(&self, other: &Record) -> bool {
        if self.tick != other.tick {
            return false;
        }
        self.happening.is_same(&other.happening)
    }
}
