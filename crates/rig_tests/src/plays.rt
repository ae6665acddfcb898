//! A list of events, the replies to alpha, and an event that can't happen: worked out by hand from the definitions.

use crate::fixtures::{ADDER, ALPHA};
use crate::steps::{Step, are_answered, played};
use host_core::plays::PlayFault;

// An overrun at instant 2, a new start, a release at instant 3, and the completion of the release at this tick.
fn overrun<'a>(release: u64) -> [Step<'a>; 12] {
    [
        Step::Load(ALPHA, ADDER),
        Step::Line(ALPHA, "start"),
        Step::Tick(5),
        Step::Tick(7),
        Step::Tick(9),
        Step::Load(ALPHA, ADDER),
        Step::Line(ALPHA, "start"),
        Step::Tick(1),
        Step::Done(ALPHA, release),
        Step::Tick(1),
        Step::Tick(1),
        Step::Line(ALPHA, "show mode"),
    ]
}

#[test]
fn completion_of_the_run_before_is_late(rt: HostRuntime) {
    let late = "ok load\nok start\nok load\nok start\nok mode stopped overrun T\n";
    let counted = "ok load\nok start\nok load\nok start\nok mode running m 1\n";
    assert!(rt; are_answered(&rt, rt.alloc(), &overrun(0), late, ""));
    assert!(rt; are_answered(&rt, rt.alloc(), &overrun(3), counted, ""));
}

#[test]
fn completion_of_a_job_that_was_never_released_is_illegal(rt: HostRuntime) {
    assert!(rt; played(&rt, rt.alloc(), &overrun(1)).err() == Some(PlayFault::Illegal(8)));
}
