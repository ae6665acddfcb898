//! Lists of events, as tests write them, and the replies to alpha and beta for such a list.

use crate::fixtures::{ADDER, ALPHA, BETA, LISTENER, frame, load, release, rig};
use host_core::events::Event;
use host_core::plays::{PlayFault, play};
use rig_model::config::TenantId;
use rig_model::lines::command_lines::command_of;
use rig_model::lines::texts::Text;
use std::alloc::Global;
use std::process::Abort;

// An event, as tests write it.
#[derive(Clone, Copy)]
pub(crate) enum Step<'a> {
    // A tenant's load of this program.
    Load(TenantId, &'a str),
    // A tenant's line.
    Line(TenantId, &'a str),
    // An instant at which the line has this value.
    Tick(i64),
    // The completion of a tenant's job of T that was released at this tick.
    Done(TenantId, u64),
}

fn event_of(rt: &impl Abort, alloc: Global, step: &Step) -> Event {
    match step {
        Step::Load(tenant, program) => Event::Own(*tenant, load(rt, alloc, program)),
        Step::Line(tenant, line) => {
            let command = command_of(alloc, line).ok().expect(rt, "a command");
            Event::Own(*tenant, command)
        }
        Step::Tick(reading) => Event::Tick(frame(rt, alloc, *reading)),
        Step::Done(tenant, tick) => Event::Done(release(rt, *tenant, *tick)),
    }
}

pub(crate) fn events_of(rt: &impl Abort, alloc: Global, steps: &[Step]) -> Vec<Event> {
    let mut events = Vec::new(alloc);
    for step in steps {
        events.push(event_of(rt, alloc, step)).expect(rt, "memory");
    }
    events
}

// The replies to each tenant of the built-in configuration for a list.
pub(crate) fn played(
    rt: &impl Abort,
    alloc: Global,
    steps: &[Step],
) -> Result<Vec<Text>, PlayFault> {
    let config = rig(rt, alloc);
    let events = events_of(rt, alloc, steps);
    let played = play(alloc, &config, events.as_slice());
    drop(events);
    drop(config);
    played
}

// Whether these are the replies to alpha and beta.
pub(crate) fn are_answered(
    rt: &impl Abort,
    alloc: Global,
    steps: &[Step],
    alpha: &str,
    beta: &str,
) -> bool {
    let texts = played(rt, alloc, steps).expect(rt, "a legal list");
    let are_they = are_texts(texts.as_slice(), alpha, beta);
    drop(texts);
    are_they
}

// Whether these are the texts for alpha and beta.
pub(crate) fn are_texts(texts: &[Text], alpha: &str, beta: &str) -> bool {
    match texts {
        [alphas, betas] => alphas.as_str() == alpha && betas.as_str() == beta,
        _ => false,
    }
}

// A supplier whose sum is granted, until the supplier takes its offer back.
pub(crate) fn granted_run<'a>() -> [Step<'a>; 14] {
    [
        Step::Load(ALPHA, ADDER),
        Step::Line(ALPHA, "offer a to beta"),
        Step::Load(BETA, LISTENER),
        Step::Line(BETA, "bind g from alpha.a"),
        Step::Line(ALPHA, "start"),
        Step::Line(BETA, "start"),
        Step::Tick(5),
        Step::Tick(7),
        Step::Done(ALPHA, 0),
        Step::Tick(9),
        Step::Line(BETA, "show port g"),
        Step::Line(ALPHA, "unoffer a to beta"),
        Step::Tick(11),
        Step::Line(BETA, "show port g"),
    ]
}
