//! The periods of the tasks that a mode invokes, and their common multiples.

ghost use Rattle.std.specs.Prelude.{◌≡◌, ◌<◌, ◌≤◌, ◌*◌, ◌^◌, [], ◌∷◌, None, length, nat_eq};
ghost use Rattle.std.specs.Int.{IsGcd};
ghost use Rattle.std.specs.List.{find};
ghost use Rattle.std.specs.Option.{option_map};
ghost use Rattle.rig_model.specs.text.Program.{ModeDeclaration};
ghost use Rattle.rig_model.specs.rules.Declarations.{period_of_task};
ghost use Rattle.tenant_slots.specs.Places.{name_of_task};
ghost use Rattle.tenant_slots.specs.cited.CommonPeriods.{IsLeastCommonMultiple};
ghost use Rattle.tenant_slots.specs.cited.Places.{IsModeAt};

use giotto_check::Checked;
use giotto_check::timetables::SlotInvocation;

/// The number of ticks between two invocations of a task in a mode, both given by their places, in text order from 0. `None` if
/// the mode doesn't invoke the task, or if there is no such mode.
pub fn period_of(checked: &Checked, mode: usize, task: usize) -> Option<u64>
    requires task { task < length checked.now.tasks }
    ensures there { (m : ModeDeclaration) → IsModeAt checked.now mode m → result ≡ period_of_task m (name_of_task checked.now task) }
    ensures none { length checked.now.modes ≤ mode → result ≡ None }
{
    // The program is well-formed.
    checked.known();
    interval_of(checked.invocations(mode), task)
}

// The interval of the first of these invocations that is for the task at this place.
fn interval_of(invocations: &[SlotInvocation], task: usize) -> Option<u64>
    ensures { result ≡ option_map (λ i. i.interval) (find (λ i. nat_eq i.task task) invocations.now) }
{
    invocations
        .iter()
        .find(|i| i.task == task)
        .map(|i| i.interval)
}

/// The least common multiple of two numbers of ticks.
pub fn common_multiple(a: u64, b: u64) -> u64
    requires positive { (0 < a) × (0 < b) }
    requires small { a * b < 2 ^ 64 }
    ensures { IsLeastCommonMultiple (a ∷ b ∷ []) result }
{
    a / greatest_common_divisor(a, b) * b
}

// Euclid's algorithm.
fn greatest_common_divisor(a: u64, b: u64) -> u64
    ensures { IsGcd a b result }
{
    let mut divisor = a;
    let mut rest = b;
    while rest != 0 {
        let next = divisor % rest;
        divisor = rest;
        rest = next;
    }
    divisor
}
