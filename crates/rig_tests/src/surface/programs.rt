//! The calls of giotto_tasks, giotto_read and giotto_check.

ghost use Rattle.std.specs.Prelude.{◌≡◌, ◌<◌, length};
ghost use Rattle.giotto_tasks.specs.Sound.{IsSound};

use crate::fixtures::{ADDER, name, one};
use crate::memory::{with_refusals, without_memory};
use giotto_check::timetables::{SlotExit, SlotInvocation, SlotUpdate, slot_value};
use giotto_check::{CheckFault, Checked, check};
use giotto_read::{Program, ReadFault, print, read};
use giotto_tasks::bodies::{Body, Expr, Primary, Stmt};
use giotto_tasks::evaluation::{driver, eval};
use giotto_tasks::lists::List;
use giotto_tasks::names::Name;
use giotto_tasks::operators::BinaryOperator;
use giotto_tasks::steps::Steps;
use giotto_tasks::values::Values;
use giotto_tasks::{cost, driver_cost};
use std::alloc::Global;
use std::marker::Brand;
use std::process::Abort;
use std::sync::ledger::{Blank, Ledger};

// The adder as it is printed.
const PRINTED_ADDER: &str =
    "sensor s := 0 line 0 ; actuator a := 0 ; output o := 0 ; task T ( i ) output o { o := i + 1 ; } mode m period 2 { actfreq 1 do a := o ; taskfreq 1 do T ( s ) ; } start m ;";

// Leaves its mode if its sensor is above 4.
const SWITCH: &str =
    "sensor s := 0 line 0; output o := 0; task T(i) output o { o := i + 1; } mode m period 6 { exitfreq 3 if s > 4 do n; taskfreq 2 do T(s); } mode n period 9 { taskfreq 3 do T(s); } start m;";

// The same without the task in the second mode, which breaks rule 10.
const BROKEN_SWITCH: &str =
    "sensor s := 0 line 0; output o := 0; task T(i) output o { o := i + 1; } mode m period 6 { exitfreq 3 if s > 4 do n; taskfreq 2 do T(s); } mode n period 9 { } start m;";

// Its body costs 9 steps.
const EXTREMES: &str =
    "output p := 5; output q := 5; output r := 5; task T() output p, q, r { p := 9223372036854775807 + 1; q := ((-9223372036854775807) - 1) / (-1); r := 1 / 0; } mode m period 1 { taskfreq 1 do T(); } start m;";

// A task with 17 inputs.
const TOO_MANY: &str =
    "task T(a, b, c, d, e, f, g, h, i, j, k, l, m, n, o, p, q) { } mode m period 1 { } start m;";

// 33 nested parentheses.
const TOO_DEEP: &str = "(((((((((((((((((((((((((((((((((";

// giotto_tasks

// The body `o := i + 1`.
fn sum(rt: &impl Abort, alloc: Global) -> Body
    ensures inputs { length result.inputs ≡ 1 }
    ensures states { length result.states ≡ 0 }
    ensures sound { IsSound result }
{
    let input = Primary::Port(name(rt, "i"));
    let sum = Expr::Binary(BinaryOperator::Add, input, Primary::Number(1));
    let mut block = Vec::new(alloc);
    block
        .push(Stmt::Assign(name(rt, "o"), sum))
        .expect(rt, "memory");
    let inputs = one(rt, alloc, name(rt, "i"));
    let outputs = one(rt, alloc, name(rt, "o"));
    let states: List<Name> = List::from_vec(Vec::new(alloc));
    Body::new(alloc, inputs, outputs, states, block).expect(rt, "a body")
}

// The new outputs and states of a body. A ledger counts the steps.
fn evaluated<L: Ledger>(
    body: &Body,
    inputs: &Values,
    states: &Values,
    blank: Blank,
) -> (Values, Values)
    requires name { blank.name ≡ L.name }
    requires parts { blank.parts ≡ L.parts }
    requires some { 0 < blank.parts }
    requires inputs { length inputs.now ≡ length body.now.inputs }
    requires states { length states.now ≡ length body.now.states }
    requires sound { IsSound body.now }
{
    let mut steps = Steps::<L>::new(blank);
    eval(body, inputs, states, &mut steps)
}

#[test]
fn body_has_a_cost_and_values(rt: HostRuntime) {
    let body = sum(&rt, rt.alloc());
    let mut inputs = Values::new();
    inputs.push(5);
    let (outputs, states) = without_memory!(
        rt.alloc(),
        evaluated::<Brand>(&body, &inputs, &Values::new(), Blank::new(1))
    );
    assert!(rt; matches!(outputs.as_slice(), [6]));
    assert!(rt; states.is_empty());
    assert!(rt; without_memory!(rt.alloc(), cost(&body)) == 2);
    drop(body);
}

#[test]
fn driver_has_a_cost_and_a_value(rt: HostRuntime) {
    let sensor = Primary::Port(name(&rt, "s"));
    let guard = Expr::Binary(BinaryOperator::Greater, sensor, Primary::Number(4));
    let sources = [(name(&rt, "s"), 5)];
    assert!(rt; without_memory!(rt.alloc(), driver_cost(&guard)) == 1);
    assert!(rt; without_memory!(rt.alloc(), driver(&guard, &sources)) == 1);
    drop(guard);
}

// giotto_read

// Whether this is the program's text.
fn is_printed(rt: &impl Abort, alloc: Global, program: &Program, text: &str) -> bool {
    let printed = with_refusals!(alloc, print(alloc, program), Err(_) => print(alloc, program));
    printed.expect(rt, "memory").as_str() == text
}

// What reading a text gives.
fn read_text(alloc: Global, text: &str) -> Result<Program, ReadFault> {
    with_refusals!(alloc, read(alloc, text), Err(ReadFault::Memory) => read(alloc, text))
}

// Whether the program with this text is printed as the other text.
fn is_read(rt: &impl Abort, alloc: Global, text: &str, printed: &str) -> bool {
    let program = read_text(alloc, text).expect(rt, "a program");
    let is_read = is_printed(rt, alloc, &program, printed);
    drop(program);
    is_read
}

fn read_fault(alloc: Global, text: &str) -> Option<ReadFault> {
    read_text(alloc, text).err()
}

#[test]
fn texts_are_read_and_printed(rt: HostRuntime) {
    let alloc = rt.alloc();
    assert!(rt; is_read(&rt, alloc, ADDER, PRINTED_ADDER));
    assert!(rt; is_read(&rt, alloc, PRINTED_ADDER, PRINTED_ADDER));
    assert!(rt; read_fault(alloc, "sensor") == Some(ReadFault::Syntax(6)));
    assert!(rt; read_fault(alloc, TOO_DEEP) == Some(ReadFault::TooDeep));
    assert!(rt; read_fault(alloc, TOO_MANY) == Some(ReadFault::TooMany));
}

// giotto_check

// What checking a program gives. Out of memory, it hands the program back.
fn checked_program(alloc: Global, program: Program) -> Result<Checked, (Program, CheckFault)> {
    with_refusals!(alloc, check(alloc, program),
        Err((program, CheckFault::Memory)) => check(alloc, program)
    )
}

fn checked(rt: &impl Abort, alloc: Global, text: &str) -> Checked {
    let program = read(alloc, text).expect(rt, "a program");
    checked_program(alloc, program)
        .ok()
        .expect(rt, "a well-formed program")
}

// The fault for which the program with this text is refused.
fn check_fault(rt: &impl Abort, alloc: Global, text: &str) -> CheckFault {
    let program = read(alloc, text).expect(rt, "a program");
    let (program, fault) = checked_program(alloc, program)
        .err()
        .expect(rt, "a broken rule");
    drop(program);
    fault
}

// Whether the adder's one update writes o to a.
fn drives_a(updates: &[SlotUpdate]) -> bool {
    match updates {
        [update] => {
            update.interval == 2
                && update.guard.is_none()
                && update.actuator == 1
                && slot_value(&update.value, &[9, 0, 6, 9]) == 6
        }
        _ => false,
    }
}

// Whether the adder's one invocation is of T.
fn invokes_t(invocations: &[SlotInvocation]) -> bool {
    match invocations {
        [invocation] => {
            invocation.interval == 2
                && invocation.guard.is_none()
                && invocation.task == 0
                && invocation.inputs == 3
                && invocation.arguments.len() == 1
        }
        _ => false,
    }
}

// Whether the one switch goes to the second mode, at 5 and not at 2.
fn leaves_at_5(exits: &[SlotExit]) -> bool {
    match exits {
        [exit] => {
            exit.interval == 2
                && exit.target == 1
                && exit.destinations.is_empty()
                && is_guarded(exit)
        }
        _ => false,
    }
}

fn is_guarded(exit: &SlotExit) -> bool {
    match &exit.guard {
        Some(guard) => slot_value(guard, &[5, 0, 1]) == 1 && slot_value(guard, &[2, 0, 1]) == 0,
        None => false,
    }
}

#[test]
fn ports_of_the_adder_have_slots(rt: HostRuntime) {
    let checked = checked(&rt, rt.alloc(), ADDER);
    let program = without_memory!(rt.alloc(), checked.program());
    assert!(rt; program.start().as_str() == "m");
    assert!(rt; checked.slots() == 4);
    assert!(rt; checked.slot(None, "o") == Some(2));
    assert!(rt; checked.slot(Some("T"), "i") == Some(3));
    assert!(rt; checked.slot(None, "i").is_none());
    assert!(rt; drives_a(checked.updates(0)));
    assert!(rt; invokes_t(checked.invocations(0)));
    assert!(rt; checked.exits(0).is_empty());
    drop(checked);
}

#[test]
fn programs_are_checked(rt: HostRuntime) {
    let switch = checked(&rt, rt.alloc(), SWITCH);
    assert!(rt; leaves_at_5(switch.exits(0)));
    drop(switch);
    let extremes = checked(&rt, rt.alloc(), EXTREMES);
    assert!(rt; without_memory!(rt.alloc(), extremes.greatest_cost()) == 9);
    drop(extremes);
    assert!(rt; check_fault(&rt, rt.alloc(), BROKEN_SWITCH) == CheckFault::Rule(10));
}
