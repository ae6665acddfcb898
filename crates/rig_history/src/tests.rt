//! Worked examples: the line of each form of a command, and audits of a short history.

use crate::audits::{Audited, Stop, audit};
use crate::commands::add_command;
use rig_model::config::{TenantId, built_in};
use rig_model::lines::command_lines::command_of;
use std::alloc::Global;
use std::process::Abort;

// Whether a command is written as the line that it was read from.
fn is_written_back(rt: &impl Abort, alloc: Global, line: &str) -> bool {
    let command = command_of(alloc, line).ok().expect(rt, "a command");
    let mut text = String::new(alloc);
    add_command(&mut text, &command).expect(rt, "memory");
    text.as_str() == line
}

#[test]
fn each_form_of_a_command_is_written_as_its_line(rt: HostRuntime) {
    let alloc = rt.alloc();
    assert!(rt; is_written_back(&rt, alloc, "load mode m period 1 { } start m; \r"));
    assert!(rt; is_written_back(&rt, alloc, "load "));
    assert!(rt; is_written_back(&rt, alloc, "replace mode m period 1 { } start m;"));
    assert!(rt; is_written_back(&rt, alloc, "start"));
    assert!(rt; is_written_back(&rt, alloc, "stop"));
    assert!(rt; is_written_back(&rt, alloc, "show mode"));
    assert!(rt; is_written_back(&rt, alloc, "show port a"));
    assert!(rt; is_written_back(&rt, alloc, "show port T.i"));
    assert!(rt; is_written_back(&rt, alloc, "show all"));
    assert!(rt; is_written_back(&rt, alloc, "trace"));
    assert!(rt; is_written_back(&rt, alloc, "offer a to beta"));
    assert!(rt; is_written_back(&rt, alloc, "offer a to beta from -5 to 9223372036854775807"));
    assert!(rt; is_written_back(&rt, alloc, "unoffer a to beta"));
    assert!(rt; is_written_back(&rt, alloc, "bind s from beta.a"));
    assert!(rt; is_written_back(&rt, alloc, "unbind s"));
    assert!(rt; is_written_back(&rt, alloc, "rows"));
}

const ADDER: &str = "\
call 0 alpha load sensor s := 0 line 0; actuator a := 0; output o := 0; task T(i) output o { o := i + 1; } mode m period 2 { actfreq 1 do a := o; taskfreq 1 do T(s); } start m;
  ok load
call 3 beta show mode
  ok mode empty
call 0 alpha start
  ok start
tick 5
  ok tick 7
done alpha 7 T
tick -2
  ok tick 8
tick 0
  ok tick 9
call 0 alpha show port a
  ok port a 6
";

// What the audit of a text finds, with the calls of this tenant: the first instant is 7, and the first line 3.
fn audited_for(rt: &impl Abort, alloc: Global, tenant: Option<TenantId>, text: &str) -> Audited {
    let config = built_in(alloc).expect(rt, "memory");
    audit(alloc, &config, 7, 3, tenant, text).expect(rt, "memory")
}

// What the audit of a text finds, without the calls of any tenant.
fn audited(rt: &impl Abort, alloc: Global, text: &str) -> Audited {
    audited_for(rt, alloc, None, text)
}

// The text with this part of it replaced once.
fn changed(rt: &impl Abort, alloc: Global, from: &str, to: &str) -> String {
    let (before, later) = ADDER.split_once(from).expect(rt, "the part");
    let mut text = String::from_str(alloc, before).expect(rt, "memory");
    text.push_str(to).expect(rt, "memory");
    text.push_str(later).expect(rt, "memory");
    text
}

#[test]
fn short_history_is_good(rt: HostRuntime) {
    let found = audited(&rt, rt.alloc(), ADDER);
    assert!(rt; found.stop.is_none());
    assert!(rt; found.entries == 8);
    assert!(rt; found.replies == 4);
    assert!(rt; found.bytes == ADDER.len());
    assert!(rt; found.calls.is_empty());
}

#[test]
fn calls_of_one_tenant_are_kept(rt: HostRuntime) {
    let alloc = rt.alloc();
    let found = audited_for(&rt, alloc, Some(1), ADDER);
    assert!(rt; found.calls.as_str() == "call 3 beta show mode\n  ok mode empty\n");
    let found = audited_for(&rt, alloc, Some(0), ADDER);
    assert!(rt;
        found.calls.as_str().ends_with(
            "\ncall 0 alpha start\n  ok start\ncall 0 alpha show port a\n  ok port a 6\n"
        )
    );
}

#[test]
fn calls_before_a_fault_are_kept(rt: HostRuntime) {
    let alloc = rt.alloc();
    let text = changed(&rt, alloc, "ok port a 6", "ok port a 7");
    let found = audited_for(&rt, alloc, Some(0), text.as_str());
    assert!(rt;
        found
            .calls
            .as_str()
            .ends_with("\ncall 0 alpha start\n  ok start\n")
    );
}

#[test]
fn changed_reply_is_found(rt: HostRuntime) {
    let alloc = rt.alloc();
    let text = changed(&rt, alloc, "ok port a 6", "ok port a 7");
    let found = audited(&rt, alloc, text.as_str());
    assert!(rt; found.entries == 7);
    let is_found = match &found.stop {
        Some(
            Stop::Differs {
                line,
                found,
                computed,
            },
        ) => *line == 17
            && found.as_str() == "  ok port a 7"
            && computed.as_str() == "  ok port a 6",
        _ => false,
    };
    assert!(rt; is_found);
}

#[test]
fn second_completion_is_refused(rt: HostRuntime) {
    let alloc = rt.alloc();
    let text = changed(
        &rt,
        alloc,
        "done alpha 7 T\n",
        "done alpha 7 T\ndone alpha 7 T\n",
    );
    let found = audited(&rt, alloc, text.as_str());
    assert!(rt; found.entries == 5);
    assert!(rt; matches!(found.stop, Some(Stop::Refused { line: 12 })));
}

#[test]
fn instant_of_another_number_is_found(rt: HostRuntime) {
    let alloc = rt.alloc();
    let text = changed(&rt, alloc, "ok tick 9", "ok tick 8");
    let found = audited(&rt, alloc, text.as_str());
    assert!(rt; found.entries == 6);
    assert!(rt; matches!(found.stop, Some(Stop::Differs { line: 15, .. })));
}

#[test]
fn text_that_ends_within_an_entry_is_good_before_it(rt: HostRuntime) {
    let alloc = rt.alloc();
    let text = changed(&rt, alloc, "  ok port a 6\n", "");
    let found = audited(&rt, alloc, text.as_str());
    assert!(rt; found.entries == 7);
    assert!(rt; found.replies == 3);
    assert!(rt; matches!(found.stop, Some(Stop::Cut { line: 16 })));
}

#[test]
fn other_line_is_no_entry(rt: HostRuntime) {
    let alloc = rt.alloc();
    let text = changed(&rt, alloc, "call 3 beta show", "call 3 gamma show");
    let found = audited(&rt, alloc, text.as_str());
    assert!(rt; found.entries == 1);
    assert!(rt; matches!(found.stop, Some(Stop::NoEntry { line: 5 })));
}
