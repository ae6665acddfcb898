//! A trace that keeps its last records.

use crate::fixtures::name;
use crate::memory::{with_refusals, without_memory};
use rig_model::trace::records::{Happening, Record};
use rig_model::trace::traces::Trace;
use std::alloc::Global;
use std::process::Abort;

// A trace of two records that got three.
fn last_two_of_three(rt: &impl Abort, alloc: Global) -> Trace {
    let made = with_refusals!(alloc, Trace::new(alloc, 2), Err(_) => Trace::new(alloc, 2));
    let mut trace = made.expect(rt, "memory");
    let first = Record {
        tick: 0,
        happening: Happening::Start(name(rt, "m")),
    };
    without_memory!(alloc, trace.push(first));
    without_memory!(alloc, trace.note(2, Happening::Out(name(rt, "o"), 6)));
    without_memory!(alloc, trace.note(4, Happening::Asked));
    trace
}

// Whether these are the record of an output and that of a stop, in this order.
fn are_an_output_and_a_stop(records: &[Record]) -> bool {
    match records {
        [first, second] => {
            let is_output = matches!(&first.happening, Happening::Out(o, 6) if o.as_str() == "o");
            let is_stop = matches!(&second.happening, Happening::Asked);
            is_output && first.tick == 2 && is_stop && second.tick == 4
        }
        _ => false,
    }
}

#[test]
fn full_trace_keeps_the_last_records(rt: HostRuntime) {
    let trace = last_two_of_three(&rt, rt.alloc());
    let listed = with_refusals!(rt.alloc(), trace.list(), Err(_) => trace.list());
    let records = listed.expect(&rt, "memory");
    assert!(rt; are_an_output_and_a_stop(records.as_slice()));
    drop(records);
    drop(trace);
}

#[test]
fn copy_of_a_trace_has_its_records(rt: HostRuntime) {
    let trace = last_two_of_three(&rt, rt.alloc());
    let copied = with_refusals!(rt.alloc(), trace.copy(), Err(_) => trace.copy());
    drop(trace);
    let copy = copied.expect(&rt, "memory");
    let records = copy.list().expect(&rt, "memory");
    assert!(rt; are_an_output_and_a_stop(records.as_slice()));
    drop(records);
    drop(copy);
}
