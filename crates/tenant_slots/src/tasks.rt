//! A task's inputs, states and outputs: what a release takes and writes, and what an end writes.

ghost use Rattle.std.specs.Prelude.{◌≡◌, ◌<◌, ◌≤◌, ◌+◌, ℕ, List, [], drop, length, map, take};
ghost use Rattle.std.specs.List.{AllByRecursion, range_with_len};
ghost use Rattle.giotto_tasks.specs.Meaning.{value_of};
ghost use Rattle.giotto_tasks.specs.Syntax.{Expression};
ghost use Rattle.rig_model.specs.text.Program.{GiottoProgram, TaskDeclaration};
ghost use Rattle.giotto_check.specs.cited.Facts.{ProgramFits};
ghost use Rattle.giotto_check.specs.cited.Slots.{slots_of, with_slots};
ghost use Rattle.giotto_check.specs.Slots.{valuation_of};
ghost use Rattle.giotto_check.specs.cited.Timetables.{AreEach, AreTaskSlots, IsExpression};
ghost use Rattle.rig_model.specs.FirstHalf.{outputs_happened};
ghost use Rattle.tenant_slots.specs.cited.Places.{IsTaskAt};
ghost use Rattle.tenant_slots.specs.inner.Tasks.{states_in, with_input_values, with_results};
ghost use Rattle.rig_model.specs.trace.cited.Noted.{noted};

use giotto_check::Checked;
use giotto_check::timetables::{SlotExpr, TaskSlots, slot_value};
use giotto_tasks::bodies::Body;
use giotto_tasks::names::Name;
use giotto_tasks::values::Values;
use rig_model::trace::records::Happening;
use rig_model::trace::traces::Trace;

/// Replaces the contents of a list with the values of an invocation's arguments, in their order. There are at most 16. Takes no
/// memory.
pub fn argument_values(arguments: &[SlotExpr], values: &[i64], given: &mut Values)
    requires few { length arguments.now ≤ 16 }
    ensures { (p : GiottoProgram) (es : List Expression) → AreEach (IsExpression p) es arguments.now → length values.now ≡ slots_of p
        → given.new ≡ map (λ e. value_of e (valuation_of p values.now)) es }
{
    // A single value is written over the old one, without emptying the list first.
    if let [argument] = arguments {
        given.set(&[slot_value(argument, values)]);
        return;
    }
    given.set(&[]);
    for argument in arguments {
        given.push(slot_value(argument, values));
    }
}

/// Puts the values of the states of the task at this place into an empty list, in their order. Takes no memory.
pub fn state_values(checked: &Checked, task: usize, values: &[i64], taken: &mut Values)
    requires there { task < length checked.now.tasks }
    requires values { length values.now ≡ slots_of checked.now }
    requires empty { taken.old ≡ [] }
    ensures { (t : TaskDeclaration) → IsTaskAt checked.now task t → taken.new ≡ states_in t (valuation_of checked.now values.now) }
{
    let states = checked.program().tasks()[task].states.as_slice().len();
    read_range(slots_at(checked, task).states, states, values, taken);
}

/// Gives the inputs of the task at this place these values, one for each. Takes no memory.
pub fn write_inputs(checked: &Checked, task: usize, inputs: &Values, values: &mut [i64])
    requires there { task < length checked.now.tasks }
    requires values { length values.old ≡ slots_of checked.now }
    requires inputs { (t : TaskDeclaration) → IsTaskAt checked.now task t → length inputs.now ≡ length t.inputs }
    ensures { (t : TaskDeclaration) → IsTaskAt checked.now task t
        → valuation_of checked.now values.new ≡ with_input_values t inputs.now (valuation_of checked.now values.old) }
{
    write_range(slots_at(checked, task).inputs, inputs.as_slice(), values);
}

/// Gives the outputs and the states of the task at this place these values, one for each. Records each written output in the
/// trace, at this tick. Takes no memory.
pub fn write_results(
    checked: &Checked,
    task: usize,
    outputs: &Values,
    states: &Values,
    tick: u64,
    values: &mut [i64],
    trace: &mut Trace,
)
    requires there { task < length checked.now.tasks }
    requires values { length values.old ≡ slots_of checked.now }
    requires states { (t : TaskDeclaration) → IsTaskAt checked.now task t → length states.now ≡ length t.states }
    ensures written { (t : TaskDeclaration) → IsTaskAt checked.now task t
        → valuation_of checked.now values.new ≡ with_results t outputs.now states.now (valuation_of checked.now values.old) }
    ensures noted { (t : TaskDeclaration) → IsTaskAt checked.now task t
        → trace.new ≡ noted tick (outputs_happened t.outputs outputs.now) trace.old }
{
    let slots = slots_at(checked, task);
    write_each(slots.outputs.as_slice(), outputs.as_slice(), values);
    write_range(slots.states, states.as_slice(), values);
    let body: &Body = &checked.program().tasks()[task].body;
    note_outputs(body.outputs.as_slice(), outputs.as_slice(), tick, trace);
}

// The slots of the task at this place.
fn slots_at(checked: &Checked, task: usize) -> &TaskSlots
    requires { task < length checked.now.tasks }
    ensures fits { ProgramFits checked.now }
    ensures slots { (t : TaskDeclaration) × IsTaskAt checked.now task t × AreTaskSlots checked.now t result.now }
{
    // The program is well-formed.
    checked.known();
    &checked.tasks()[task]
}

// Puts `count` numbers, at most 16, from slot `first` on into an empty list.
fn read_range(first: usize, count: usize, values: &[i64], taken: &mut Values)
    requires few { count ≤ 16 }
    requires there { (i : ℕ) → i < count → first + i < length values.now }
    requires empty { taken.old ≡ [] }
    ensures { taken.new ≡ take count (drop first values.now) }
{
    for i in 0..count {
        taken.push(values[first + i]);
    }
}

// Writes these numbers to consecutive slots, from `first` on.
fn write_range(first: usize, numbers: &[i64], values: &mut [i64])
    requires { (i : ℕ) → i < length numbers.now → first + i < length values.old }
    ensures { values.new ≡ with_slots values.old (range_with_len first (length numbers.now)) numbers.now }
{
    for (i, number) in numbers.iter().enumerate() {
        values[first + i] = *number;
    }
}

// Records in the trace that these outputs were written at this tick, each with its number.
fn note_outputs(names: &[Name], numbers: &[i64], tick: u64, trace: &mut Trace)
    ensures { trace.new ≡ noted tick (outputs_happened names.now numbers.now) trace.old }
{
    for (name, number) in names.iter().zip(numbers) {
        trace.note(tick, Happening::Out(name.copy(), *number));
    }
}

// Writes each of these numbers to its slot.
fn write_each(slots: &[usize], numbers: &[i64], values: &mut [i64])
    requires { AllByRecursion (λ k. k < length values.old) slots.now }
    ensures { values.new ≡ with_slots values.old slots.now numbers.now }
{
    for (slot, number) in slots.iter().zip(numbers) {
        values[*slot] = *number;
    }
}
