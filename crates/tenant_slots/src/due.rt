//! What is due at a mode time.

ghost use Rattle.std.specs.Prelude.{◌≡◌, ◌<◌, ◌≤◌, ◌%◌, ◌-◌, ◌^◌, ◌==◌, ◌&&◌, ℕ, false, length, nat_eq};
ghost use Rattle.std.specs.List.{list_any, AllByRecursion};
ghost use Rattle.rig_model.specs.text.Program.{ModeDeclaration};
ghost use Rattle.tenant_slots.specs.cited.Due.{IsNextDue, IsQuietUntil, MarksDue, is_among_due};
ghost use Rattle.tenant_slots.specs.cited.Places.{IsModeAt};

use giotto_check::Checked;
use giotto_check::timetables::SlotInvocation;
use std::marker::Model;

/// A mode time, and the last answer about what is due at it. The answer is kept because many lines of a timetable have the same
/// interval.
#[derive(Drop)]
pub struct Due {
    time: u64,
    interval: u64,
    is_due: bool,
}

impl Model for Due {
    ghost use Rattle.std.specs.Prelude.{◌≡◌, ◌<◌, ◌%◌, ◌==◌, ℕ};

    ghost Value = { ℕ };

    ghost view = { λ d. d.time };

    ghost invariant = { λ d. (0 < d.interval) × (d.is_due ≡ (d.time % d.interval == 0)) };
}

impl Due {
    /// Makes a `Due` for this mode time.
    pub fn at(time: u64) -> Due
        ensures { result ≡ time }
    {
        Due {
            time,
            interval: 1,
            is_due: true,
        }
    }

    /// Whether anything with this interval, in ticks, is due.
    pub fn is_due(&mut self, interval: u64) -> bool
        requires { 0 < interval }
        ensures due { result ≡ (self.old % interval == 0) }
        ensures time { self.new ≡ self.old }
    {
        if interval != self.interval {
            self.is_due = self.time % interval == 0;
            self.interval = interval;
        }
        self.is_due
    }
}

/// The next mode time, from this one on, at which something of the mode at this place is due. It is the greatest 64-bit number if
/// there is no such mode, or if nothing is due before that number.
pub fn next_due(checked: &Checked, mode: usize, time: u64) -> u64
    ensures there { (m : ModeDeclaration) → IsModeAt checked.now mode m → IsNextDue m time result }
    ensures none { length checked.now.modes ≤ mode → result ≡ 2 ^ 64 - 1 }
{
    // Frequencies are positive.
    checked.known();
    let mut next = u64::MAX;
    for update in checked.updates(mode) {
        next = next.min(next_multiple(time, update.interval));
        if next == time {
            return time;
        }
    }
    for exit in checked.exits(mode) {
        next = next.min(next_multiple(time, exit.interval));
        if next == time {
            return time;
        }
    }
    for invocation in checked.invocations(mode) {
        next = next.min(next_multiple(time, invocation.interval));
        if next == time {
            return time;
        }
    }
    next
}

// The first multiple of the interval from this time on, or `u64::MAX` if that comes first.
fn next_multiple(time: u64, interval: u64) -> u64
    requires { 0 < interval }
    ensures from { time ≤ result }
    ensures quiet { (t : ℕ) → time ≤ t → t < result → (t % interval == 0) ≡ false }
    ensures due { (result % interval == 0) ≡ false → result ≡ 2 ^ 64 - 1 }
{
    match time % interval {
        0 => time,
        rest => time.saturating_add(interval - rest),
    }
}

/// Returns a mode time before which nothing is due, from the mode time `later` on. `time` is the mode time of an instant, `later` the
/// mode time after it, and `next` a mode time before which nothing is due from `time` on.
pub fn due_after(checked: &Checked, mode: usize, time: u64, later: u64, next: u64) -> u64
    ensures { (m : ModeDeclaration) → IsModeAt checked.now mode m → IsQuietUntil m time next → IsQuietUntil m later result }
{
    if later <= time {
        return 0;
    }
    if time < next {
        return next;
    }
    next_due(checked, mode, later)
}

/// How many tasks of a program have a place in the tables by task. These are the first ones.
pub const TABLED_TASKS: usize = 64;

/// Marks which of the first `TABLED_TASKS` tasks are due at this mode time, by one of these invocations.
pub fn mark_due(invocations: &[SlotInvocation], time: u64, marks: &mut [bool; TABLED_TASKS])
    requires { AllByRecursion (λ i. 0 < i.interval) invocations.now }
    ensures { MarksDue invocations.now time marks.new }
{
    let mut due = Due::at(time);
    *marks = [false; TABLED_TASKS];
    for i in invocations {
        if i.task < TABLED_TASKS && due.is_due(i.interval) {
            marks[i.task] = true;
        }
    }
}

/// Whether one of these invocations of the task at this place is due at this mode time. `marks` are those of `mark_due`.
pub fn is_task_due(
    invocations: &[SlotInvocation],
    time: u64,
    marks: &[bool; TABLED_TASKS],
    task: usize,
) -> bool
    requires positive { AllByRecursion (λ i. 0 < i.interval) invocations.now }
    requires marks { MarksDue invocations.now time marks.now }
    ensures { result ≡ is_among_due time task invocations.now }
{
    if task < TABLED_TASKS {
        return marks[task];
    }
    for i in invocations {
        if task == i.task && time % i.interval == 0 {
            return true;
        }
    }
    false
}

/// Whether one of these invocations of the task at this place is due at this mode time.
pub fn ends_at(invocations: &[SlotInvocation], time: u64, place: usize) -> bool
    requires { AllByRecursion (λ i. 0 < i.interval) invocations.now }
    ensures { result ≡ is_among_due time place invocations.now }
{
    let mut due = Due::at(time);
    for invocation in invocations {
        if place == invocation.task && due.is_due(invocation.interval) {
            return true;
        }
    }
    false
}
