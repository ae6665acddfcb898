//! Comparison of budgets.

ghost use Rattle.std.specs.Prelude.{◌≡◌, ◌↔◌, IsTrue};

use crate::Budgets;
use crate::intervals::Bounds;
use giotto_tasks::same::{Same, all_same};

impl Same for Bounds {
    fn is_same(&self, other: &Bounds) -> bool {
        self.low() == other.low() && self.high() == other.high()
    }
}

impl Same for Budgets {
    fn is_same(&self, other: &Budgets) -> bool {
        has_same_lines(self, other) && has_same_sizes(self, other) && has_same_counts(self, other)
    }
}

fn has_same_lines(one: &Budgets, other: &Budgets) -> bool
    ensures { IsTrue result ↔ ((one.now.reads ≡ other.now.reads) × (one.now.writes ≡ other.now.writes)) }
{
    all_same(one.reads.as_slice(), other.reads.as_slice())
        && all_same(one.writes.as_slice(), other.writes.as_slice())
}

fn has_same_sizes(one: &Budgets, other: &Budgets) -> bool
    ensures { IsTrue result ↔ ((one.now.bytes ≡ other.now.bytes) × ((one.now.ports ≡ other.now.ports) × ((one.now.tasks ≡ other.now.tasks) × ((one.now.modes ≡ other.now.modes) × (one.now.steps ≡ other.now.steps))))) }
{
    one.bytes == other.bytes
        && one.ports == other.ports
        && one.tasks == other.tasks
        && one.modes == other.modes
        && one.steps == other.steps
}

fn has_same_counts(one: &Budgets, other: &Budgets) -> bool
    ensures { IsTrue result ↔ ((one.now.trace ≡ other.now.trace) × ((one.now.offers ≡ other.now.offers) × ((one.now.binds ≡ other.now.binds) × (one.now.bounds ≡ other.now.bounds)))) }
{
    one.trace == other.trace
        && one.offers == other.offers
        && one.binds == other.binds
        && one.bounds.is_same(&other.bounds)
}
