//! The replies to a tenant for a list of events and for its kept part: worked out by hand from the definitions.

use crate::fixtures::{ADDER, ALPHA, BETA, LISTENER, NOBODY, rig};
use crate::steps::{Step, events_of, granted_run};
use host_core::plays::PlayFault;
use host_core::trials::{TrialOutcome, trial_outcome};
use rig_model::config::TenantId;
use std::alloc::Global;
use std::process::Abort;

// The trial of a list for a tenant of the built-in configuration.
fn tried(
    rt: &impl Abort,
    alloc: Global,
    steps: &[Step],
    tenant: TenantId,
) -> Result<TrialOutcome, PlayFault> {
    let config = rig(rt, alloc);
    let events = events_of(rt, alloc, steps);
    let tried = trial_outcome(alloc, &config, events.as_slice(), tenant);
    drop(events);
    drop(config);
    tried
}

// Whether the events at these places are left out, and no others.
fn are_left_out(stays: &[bool], places: &[usize]) -> bool {
    for i in 0..stays.len() {
        if stays[i] == places.contains(&i) {
            return false;
        }
    }
    true
}

// Whether the tenant gets this text for both lists, and the events at these places are left out.
fn is_given(outcome: &TrialOutcome, text: &str, places: &[usize]) -> bool {
    outcome.whole.as_str() == text
        && outcome.kept.as_str() == text
        && are_left_out(outcome.stays.as_slice(), places)
}

// Whether a trial gives this text and leaves out the events at these places. It keeps or leaves out each event.
fn gives(
    rt: &impl Abort,
    alloc: Global,
    steps: &[Step],
    tenant: TenantId,
    text: &str,
    places: &[usize],
) -> bool {
    let outcome = tried(rt, alloc, steps, tenant).expect(rt, "a legal list");
    assert!(rt; outcome.stays.len() == steps.len());
    let is_given = is_given(&outcome, text, places);
    drop(outcome);
    is_given
}

// The fault for which there is no trial.
fn refusal(rt: &impl Abort, alloc: Global, steps: &[Step], tenant: TenantId) -> Option<PlayFault> {
    tried(rt, alloc, steps, tenant).err()
}

#[test]
fn consumer_keeps_its_supplier_and_the_supplier_keeps_itself(rt: HostRuntime) {
    let consumer = "ok load\nok bind\nok start\nok port g 6\nok port g -1\n";
    assert!(rt; gives(&rt, rt.alloc(), &granted_run(), BETA, consumer, &[]));
    let supplier = "ok load\nok offer\nok start\nok unoffer\n";
    assert!(rt;
        gives(
            &rt,
            rt.alloc(),
            &granted_run(),
            ALPHA,
            supplier,
            &[2, 3, 5, 10, 13]
        )
    );
}

// The bind exists only at the first instant, and the supplier starts after it.
fn bind_at_the_first_instant<'a>() -> [Step<'a>; 9] {
    [
        Step::Load(ALPHA, ADDER),
        Step::Load(BETA, LISTENER),
        Step::Line(BETA, "bind g from alpha.a"),
        Step::Line(BETA, "start"),
        Step::Tick(5),
        Step::Line(BETA, "unbind g"),
        Step::Line(ALPHA, "start"),
        Step::Tick(5),
        Step::Line(BETA, "show port g"),
    ]
}

#[test]
fn bind_counts_without_an_offer_and_only_before_its_last_instant(rt: HostRuntime) {
    let consumer = "ok load\nok bind\nok start\nok unbind\nok port g -1\n";
    assert!(rt;
        gives(
            &rt,
            rt.alloc(),
            &bind_at_the_first_instant(),
            BETA,
            consumer,
            &[6]
        )
    );
}

// The bind is undone before any instant.
fn bind_undone<'a>() -> [Step<'a>; 7] {
    [
        Step::Load(ALPHA, ADDER),
        Step::Load(BETA, LISTENER),
        Step::Line(BETA, "bind g from alpha.a"),
        Step::Line(BETA, "start"),
        Step::Line(BETA, "unbind g"),
        Step::Tick(5),
        Step::Line(BETA, "show port g"),
    ]
}

#[test]
fn bind_that_is_undone_before_an_instant_gives_no_source(rt: HostRuntime) {
    let consumer = "ok load\nok bind\nok start\nok unbind\nok port g -1\n";
    assert!(rt; gives(&rt, rt.alloc(), &bind_undone(), BETA, consumer, &[0]));
}

// Both run the adder, and are bound to nobody.
fn strangers<'a>() -> [Step<'a>; 10] {
    [
        Step::Load(ALPHA, ADDER),
        Step::Load(BETA, ADDER),
        Step::Line(ALPHA, "start"),
        Step::Line(BETA, "start"),
        Step::Tick(5),
        Step::Done(ALPHA, 0),
        Step::Done(BETA, 0),
        Step::Tick(7),
        Step::Tick(9),
        Step::Line(BETA, "show port a"),
    ]
}

#[test]
fn own_completions_stay_and_those_of_others_go(rt: HostRuntime) {
    let beta = "ok load\nok start\nok port a 6\n";
    assert!(rt; gives(&rt, rt.alloc(), &strangers(), BETA, beta, &[0, 2, 5]));
}

// The supplier overruns at the third instant, and its completion comes after that.
fn late_supplier<'a>() -> [Step<'a>; 12] {
    [
        Step::Load(ALPHA, ADDER),
        Step::Line(ALPHA, "offer a to beta"),
        Step::Load(BETA, LISTENER),
        Step::Line(BETA, "bind g from alpha.a"),
        Step::Line(ALPHA, "start"),
        Step::Line(BETA, "start"),
        Step::Tick(5),
        Step::Tick(7),
        Step::Tick(9),
        Step::Done(ALPHA, 0),
        Step::Tick(11),
        Step::Line(BETA, "show port g"),
    ]
}

#[test]
fn late_completion_of_a_source_stays(rt: HostRuntime) {
    let consumer = "ok load\nok bind\nok start\nok port g 0\n";
    assert!(rt; gives(&rt, rt.alloc(), &late_supplier(), BETA, consumer, &[]));
}

// The job that is completed was never released.
fn illegal<'a>() -> [Step<'a>; 3] {
    [
        Step::Load(ALPHA, ADDER),
        Step::Done(ALPHA, 0),
        Step::Line(NOBODY, "start"),
    ]
}

#[test]
fn no_tenant_is_told_before_the_list_is_looked_at(rt: HostRuntime) {
    assert!(rt; refusal(&rt, rt.alloc(), &granted_run(), NOBODY) == Some(PlayFault::NoTenant));
    assert!(rt; refusal(&rt, rt.alloc(), &illegal(), NOBODY) == Some(PlayFault::NoTenant));
    assert!(rt; refusal(&rt, rt.alloc(), &illegal(), ALPHA) == Some(PlayFault::Illegal(1)));
}
