//! Copies of commands, replies and events, which no line of the program shows.

use crate::fixtures::{BETA, name, one, release};
use crate::memory::with_refusals;
use giotto_tasks::lists::List;
use host_core::events::Event;
use rig_model::config::intervals::Bounds;
use rig_model::grants::rows::{Offer, Row};
use rig_model::lines::command_lines::{LineFault, command_of};
use rig_model::lines::commands::Command;
use rig_model::lines::ports::{PortName, PortValue};
use rig_model::lines::replies::{Reply, print_reply};
use rig_model::trace::records::{Happening, Record};
use std::alloc::Global;
use std::process::Abort;

// The replies to `show all`, `trace` and `rows` with one port, one record and one row.
fn one_port(rt: &impl Abort, alloc: Global) -> Reply {
    let port = PortName {
        task: None,
        name: name(rt, "a"),
    };
    Reply::All(one(rt, alloc, PortValue { port, value: 5 }))
}

fn one_record(rt: &impl Abort, alloc: Global) -> Reply {
    let record = Record {
        tick: 7,
        happening: Happening::Asked,
    };
    Reply::Trace(one(rt, alloc, record))
}

fn one_row(rt: &impl Abort, alloc: Global) -> Reply {
    let offer = Offer {
        actuator: name(rt, "a"),
        tenant: name(rt, "beta"),
        bounds: Bounds::whole(),
    };
    Reply::Rows(one(rt, alloc, Row::Offer(offer)))
}

// Whether the reply's copy has this text.
fn copy_has(rt: &impl Abort, alloc: Global, reply: Reply, text: &str) -> bool {
    let copied = with_refusals!(alloc, reply.copy(alloc), Err(_) => reply.copy(alloc));
    let copy = copied.expect(rt, "memory");
    drop(reply);
    let printed =
        with_refusals!(alloc, print_reply(alloc, &copy), Err(_) => print_reply(alloc, &copy));
    drop(copy);
    printed.expect(rt, "memory").as_str() == text
}

#[test]
fn copies_replies(rt: HostRuntime) {
    let alloc = rt.alloc();
    assert!(rt; copy_has(&rt, alloc, one_port(&rt, alloc), "ok all a=5"));
    assert!(rt; copy_has(&rt, alloc, one_record(&rt, alloc), "ok trace 7:stop:asked"));
    assert!(rt; copy_has(&rt, alloc, one_row(&rt, alloc), "ok rows offer:a:beta"));
}

// A reply to `show all` with nothing to list.
fn no_port(alloc: Global) -> Reply {
    Reply::All(List::from_vec(Vec::new(alloc)))
}

fn no_record(alloc: Global) -> Reply {
    Reply::Trace(List::from_vec(Vec::new(alloc)))
}

fn no_row(alloc: Global) -> Reply {
    Reply::Rows(List::from_vec(Vec::new(alloc)))
}

#[test]
fn copies_replies_that_list_nothing(rt: HostRuntime) {
    let alloc = rt.alloc();
    assert!(rt; copy_has(&rt, alloc, no_port(alloc), "ok all"));
    assert!(rt; copy_has(&rt, alloc, no_record(alloc), "ok trace"));
    assert!(rt; copy_has(&rt, alloc, no_row(alloc), "ok rows"));
}

// The copy of the command that a line spells.
fn copy_of_command(rt: &impl Abort, alloc: Global, line: &str) -> Command {
    let spelled = with_refusals!(alloc, command_of(alloc, line),
        Err(LineFault::Memory) => command_of(alloc, line)
    );
    let command = spelled.ok().expect(rt, "a command");
    let copied = with_refusals!(alloc, command.copy(), Err(_) => command.copy());
    drop(command);
    copied.expect(rt, "memory")
}

// Whether it is a `load` of this text.
fn is_load(command: &Command, text: &str) -> bool {
    match command {
        Command::Load(own) => own.as_str() == text,
        _ => false,
    }
}

#[test]
fn copies_commands(rt: HostRuntime) {
    let alloc = rt.alloc();
    assert!(rt; matches!(copy_of_command(&rt, alloc, "start"), Command::Start));
    assert!(rt; is_load(&copy_of_command(&rt, alloc, "load"), ""));
    assert!(rt; is_load(&copy_of_command(&rt, alloc, "load start m;"), "start m;"));
}

// Whether an event is the completion of beta's job of T that was released at tick 7.
fn is_completion(event: &Event) -> bool {
    match event {
        Event::Done(id) => id.tenant == 1 && id.tick == 7 && id.task.as_str() == "T",
        _ => false,
    }
}

// Whether the copy of such an event is one too.
fn copies_the_completion(rt: &impl Abort, alloc: Global) -> bool {
    let event = Event::Done(release(rt, BETA, 7));
    let copied = with_refusals!(alloc, event.copy(alloc), Err(_) => event.copy(alloc));
    let copy = copied.expect(rt, "memory");
    let is_copy = is_completion(&copy);
    drop(copy);
    drop(event);
    is_copy
}

#[test]
fn copies_a_completion(rt: HostRuntime) {
    assert!(rt; copies_the_completion(&rt, rt.alloc()));
}
