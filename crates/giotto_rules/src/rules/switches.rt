//! Rule 10: the target mode of a switch continues each task that the switch can interrupt, with the task's period.

ghost use Rattle.std.specs.Prelude.{◌≡◌, ◌/◌, ◌%◌, ◌==◌, map, IfOk};
ghost use Rattle.std.specs.Option.{option_copied};
ghost use Rattle.giotto_text.specs.ProgramTrees.{mode_of, switch_of, invocation_of};
ghost use Rattle.giotto_rules.specs.Declarations as declared;
ghost use Rattle.giotto_tasks.specs.cited.Places.{place_from};
ghost use Rattle.giotto_rules.specs.Rules as rules;
ghost use Rattle.giotto_rules.specs.Switches as spec;
ghost use Rattle.giotto_rules.specs.inner.Periods as by_place;

use crate::indexed::Indexed;
use crate::lookups::find_mode;
use giotto_tasks::lists::List;
use giotto_tasks::names::Name;
use giotto_text::programs::{Invocation, Mode, Program, Switch};
use std::alloc::{AllocError, Global};

// An invocation of a mode.
#[derive(Drop)]
struct Repetition {
    // The number of ticks between two of them.
    every: u64,
    // The place of its task among the program's tasks.
    task: Option<usize>,
}

/// Whether each switch is due only when an invocation of a task ends, or has a target mode that invokes the task with
/// the same period.
pub(crate) fn switches_keep_periods(alloc: Global, program: &Indexed) -> Result<bool, AllocError>
    ensures { IfOk result (λ holds. holds ≡ rules.switches_keep_periods program.now) }
{
    let periods = periods_of_modes(alloc, program)?;
    modes_keep_periods(alloc, program, &periods)
}

// For each mode, the number of ticks between two invocations of each task.
fn periods_of_modes(alloc: Global, program: &Indexed) -> Result<Vec<List<Option<u64>>>, AllocError>
    ensures { IfOk result
        (λ periods. periods.items ≡ map (by_place.periods_in program.now) program.now.modes) }
{
    let mut periods = Vec::new(alloc);
    for mode in program.modes() {
        periods.push(periods_in(alloc, program, mode)?)?;
    }
    Ok(periods)
}

fn periods_in(
    alloc: Global,
    program: &Indexed,
    mode: &Mode,
) -> Result<List<Option<u64>>, AllocError>
    ensures { IfOk result (λ periods. periods ≡ by_place.periods_in program.now (mode_of mode.now)) }
{
    let mut periods = Vec::new(alloc);
    for task in program.program().tasks() {
        periods.push(period_of_task(mode, &task.name))?;
    }
    Ok(List::from_vec(periods))
}

fn modes_keep_periods(
    alloc: Global,
    program: &Indexed,
    periods: &[List<Option<u64>>],
) -> Result<bool, AllocError>
    requires { periods.now ≡ map (by_place.periods_in program.now) program.now.modes }
    ensures { IfOk result (λ holds. holds ≡ rules.switches_keep_periods program.now) }
{
    for mode in program.modes() {
        if !mode_keeps_periods(alloc, program, periods, mode)? {
            return Ok(false);
        }
    }
    Ok(true)
}

fn mode_keeps_periods(
    alloc: Global,
    program: &Indexed,
    periods: &[List<Option<u64>>],
    mode: &Mode,
) -> Result<bool, AllocError>
    requires { periods.now ≡ map (by_place.periods_in program.now) program.now.modes }
    ensures { IfOk result (λ holds. holds ≡ spec.mode_keeps_periods program.now (mode_of mode.now)) }
{
    let repetitions = repetitions(alloc, program, mode)?;
    Ok(switches_keep_repetitions(program, periods, mode, &repetitions))
}

fn repetitions(alloc: Global, program: &Indexed, mode: &Mode) -> Result<Vec<Repetition>, AllocError>
    ensures { IfOk result
        (λ repetitions. repetitions.items ≡ by_place.repetitions_in program.now (mode_of mode.now)) }
{
    let mut repetitions = Vec::new(alloc);
    for invocation in mode.invocations.as_slice() {
        repetitions.push(Repetition {
            every: ticks_between(mode.period, invocation.frequency),
            task: program.place_of_task(&invocation.task),
        })?;
    }
    Ok(repetitions)
}

fn switches_keep_repetitions(
    program: &Indexed,
    periods: &[List<Option<u64>>],
    mode: &Mode,
    repetitions: &[Repetition],
) -> bool
    requires periods { periods.now ≡ map (by_place.periods_in program.now) program.now.modes }
    requires repetitions { repetitions.now ≡ by_place.repetitions_in program.now (mode_of mode.now) }
    ensures { result ≡ spec.mode_keeps_periods program.now (mode_of mode.now) }
{
    for switch in mode.switches.as_slice() {
        if !switch_keeps_periods(program, periods, mode, repetitions, switch) {
            return false;
        }
    }
    true
}

fn switch_keeps_periods(
    program: &Indexed,
    periods: &[List<Option<u64>>],
    mode: &Mode,
    repetitions: &[Repetition],
    switch: &Switch,
) -> bool
    requires periods { periods.now ≡ map (by_place.periods_in program.now) program.now.modes }
    requires repetitions { repetitions.now ≡ by_place.repetitions_in program.now (mode_of mode.now) }
    ensures { result
        ≡ spec.switch_keeps_periods program.now (mode_of mode.now) (switch_of switch.now) }
{
    let row = periods_of_target(program, periods, &switch.target);
    let invocations = mode.invocations.as_slice();
    for i in 0..invocations.len() {
        let invocation = &invocations[i];
        let repetition = &repetitions[i];
        if !keeps_period(program, row, mode, switch, invocation, repetition) {
            return false;
        }
    }
    true
}

// The periods of the tasks in a mode, if there is such a mode.
fn periods_of_target<'a>(
    program: &Indexed,
    periods: &'a [List<Option<u64>>],
    mode: &Name,
) -> Option<&'a List<Option<u64>>>
    requires { periods.now ≡ map (by_place.periods_in program.now) program.now.modes }
    ensures { option_copied result ≡ by_place.periods_in_named program.now mode.now }
{
    match program.place_of_mode(mode) {
        Some(place) => periods.get(place),
        None => None,
    }
}

fn keeps_period(
    program: &Indexed,
    row: Option<&List<Option<u64>>>,
    mode: &Mode,
    switch: &Switch,
    invocation: &Invocation,
    repetition: &Repetition,
) -> bool
    requires row { option_copied row ≡ by_place.periods_in_named program.now switch.now.target }
    requires repetition { repetition.now ≡ by_place.repetition_of program.now mode.now.period (invocation_of invocation.now) }
    ensures { result
        ≡ spec.keeps_period program.now mode.now.period (switch_of switch.now)
        (invocation_of invocation.now) }
{
    is_multiple(
        ticks_between(mode.period, switch.frequency),
        repetition.every,
    ) || goes_on(program, row, &switch.target, &invocation.task, repetition)
}

// Whether the mode with these periods invokes the task with this period, in ticks.
fn goes_on(
    program: &Indexed,
    row: Option<&List<Option<u64>>>,
    mode: &Name,
    task: &Name,
    repetition: &Repetition,
) -> bool
    requires row { option_copied row ≡ by_place.periods_in_named program.now mode.now }
    requires repetition { repetition.now.task ≡ place_from 0 (declared.task_names program.now) task.now }
    ensures { result
        ≡ spec.goes_on_with (declared.mode_named program.now mode.now) task.now repetition.now.every }
{
    match repetition.task {
        Some(place) => is_period_at(row, place, repetition.every),
        None => goes_on_by_name(program.program(), mode, task, repetition.every),
    }
}

fn is_period_at(row: Option<&List<Option<u64>>>, place: usize, period: u64) -> bool
    ensures { result ≡ spec.is_period (by_place.period_at (option_copied row.entry) place) period }
{
    let Some(periods) = row else {
        return false;
    };
    let periods = periods.as_slice();
    if place >= periods.len() {
        return false;
    }
    match periods[place] {
        Some(own) => own == period,
        None => false,
    }
}

// Whether the mode invokes the task with this period, in ticks. Used for a task that isn't declared: it has no place.
fn goes_on_by_name(program: &Program, mode: &Name, task: &Name, period: u64) -> bool
    ensures { result ≡ spec.goes_on_with (declared.mode_named program.now mode.now) task.now period }
{
    match find_mode(program, mode) {
        Some(mode) => is_invoked_every(mode, task, period),
        None => false,
    }
}

fn is_invoked_every(mode: &Mode, task: &Name, period: u64) -> bool
    ensures { result
        ≡ spec.is_period (declared.period_of_task (mode_of mode.now) task.now) period }
{
    match period_of_task(mode, task) {
        Some(own) => own == period,
        None => false,
    }
}

fn period_of_task(mode: &Mode, task: &Name) -> Option<u64>
    ensures { result ≡ declared.period_of_task (mode_of mode.now) task.now }
{
    for invocation in mode.invocations.as_slice() {
        if invocation.task == *task {
            return Some(ticks_between(mode.period, invocation.frequency));
        }
    }
    None
}

// The number of ticks between two events of this frequency in a period, or 0 if the frequency is 0.
fn ticks_between(period: u64, frequency: u64) -> u64
    ensures { result ≡ period / frequency }
{
    if frequency == 0 {
        return 0;
    }
    period / frequency
}

fn is_multiple(n: u64, of: u64) -> bool
    ensures { result ≡ (n % of == 0) }
{
    if of == 0 {
        return n == 0;
    }
    n % of == 0
}
