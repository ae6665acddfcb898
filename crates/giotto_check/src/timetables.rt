//! What an instant needs of a program, over the numbers of its ports: no names are looked up.

ghost use Rattle.std.specs.Prelude.{◌≡◌};
ghost use Rattle.giotto_check.specs.cited.Timetables.{value_over};

use giotto_tasks::code::driver::DriverCode;

/// An expression of a driver over the values of all ports, each by its slot.
#[derive(Drop)]
pub struct SlotExpr {
    pub(crate) code: DriverCode,
}

/// An update of an actuator.
#[derive(Drop)]
pub struct SlotUpdate {
    /// In ticks. The update is due if this divides the mode time.
    pub interval: u64,
    /// The update is skipped if this is 0. An absent guard is always true.
    pub guard: Option<SlotExpr>,
    /// The slot of the actuator.
    pub actuator: usize,
    pub value: SlotExpr,
}

/// A value that a switch gives to an output.
#[derive(Drop)]
pub struct SlotDestination {
    /// The slot of the output.
    pub output: usize,
    pub value: SlotExpr,
}

/// A switch to another mode or to the same one.
#[derive(Drop)]
pub struct SlotExit {
    /// In ticks. The switch is checked if this divides the mode time.
    pub interval: u64,
    /// The switch is taken if this is not 0. An absent guard is always true.
    pub guard: Option<SlotExpr>,
    /// The place of the next mode, in text order from 0.
    pub target: usize,
    /// In text order. All values are computed before the first one is written.
    pub destinations: Vec<SlotDestination>,
}

/// An invocation of a task.
#[derive(Drop)]
pub struct SlotInvocation {
    /// In ticks. The invocation is due if this divides the mode time.
    pub interval: u64,
    /// The task is not run if this is 0. An absent guard is always true.
    pub guard: Option<SlotExpr>,
    /// The place of the task, in text order from 0.
    pub task: usize,
    /// The slot of the task's first input; the others follow it.
    pub inputs: usize,
    /// One for each input of the task, in their order.
    pub arguments: Vec<SlotExpr>,
}

/// The slots of a task's ports.
#[derive(Drop)]
pub struct TaskSlots {
    /// The slot of the task's first input; the others follow it.
    pub inputs: usize,
    /// The slot of the task's first state; the others follow it.
    pub states: usize,
    /// The slot of each output, in the order of the task's list.
    pub outputs: Vec<usize>,
}

/// The timetables of a mode, each in text order.
#[derive(Drop)]
pub(crate) struct Timetable {
    pub(crate) updates: Vec<SlotUpdate>,
    pub(crate) exits: Vec<SlotExit>,
    pub(crate) invocations: Vec<SlotInvocation>,
}

/// The value of an expression, given the values of all ports by slot. Allocates nothing.
#[inline(always)]
pub fn slot_value(e: &SlotExpr, values: &[i64]) -> i64
    ensures { result ≡ value_over e.now values.now }
{
    e.code.value(values)
}
