//! The summary of a trial: which tenants were left out, and how many replies were compared.

use crate::recordings::Recording;
use crate::texts::name_of;
use host_core::events::Event;
use host_core::trials::TrialOutcome;
use rig_model::config::{Config, TenantId};
use std::alloc::{AllocError, Global};

// The number of a tenant's events, and of those that are left out.
#[derive(Clone, Copy, Drop)]
struct Tally {
    events: usize,
    left_out: usize,
}

/// Returns two lines: which tenants were left out, and how many replies of the tenant were compared and are equal.
///
/// # Errors
/// Out of memory.
pub fn text_of_summary(
    alloc: Global,
    config: &Config,
    recording: &Recording,
    trial: &TrialOutcome,
) -> Result<String, AllocError> {
    let who = text_of_left_out(alloc, config, recording, trial)?;
    let compared = trial.whole.as_str().lines().count();
    let equal = equal_lines(trial.whole.as_str(), trial.kept.as_str());
    format!(in alloc; "Left out are {who}.\nReplies compared: {compared}, equal: {equal}.\n")
}

// The tenants that were left out, in whole or in part, in the order of the roster.
fn text_of_left_out(
    alloc: Global,
    config: &Config,
    recording: &Recording,
    trial: &TrialOutcome,
) -> Result<String, AllocError> {
    let mut text = String::new(alloc);
    for tenant in 0..config.tenants().len() {
        let tally = tally_of(recording.events.as_slice(), trial.stays.as_slice(), tenant);
        if tally.left_out == 0 {
            continue;
        }
        let name = name_of(config, tenant);
        let comma = if text.is_empty() { "" } else { ", " };
        let how = if tally.left_out < tally.events {
            "part"
        } else {
            "whole"
        };
        write!(text, "{comma}{name} in {how}")?;
    }
    if text.is_empty() {
        text.push_str("no commands and no jobs of anybody")?;
    }
    Ok(text)
}

// The tally of a tenant.
fn tally_of(events: &[Event], stays: &[bool], tenant: TenantId) -> Tally {
    let mut tally = Tally {
        events: 0,
        left_out: 0,
    };
    for (event, stays) in events.iter().zip(stays.iter()) {
        if is_of(event, tenant) {
            tally.events = tally.events.saturating_add(1);
            if !*stays {
                tally.left_out = tally.left_out.saturating_add(1);
            }
        }
    }
    tally
}

// Whether an event is a command of this tenant, or a completion of one of its jobs.
fn is_of(event: &Event, tenant: TenantId) -> bool {
    match event {
        Event::Own(own, _) => *own == tenant,
        Event::Done(id) => id.tenant == tenant,
        Event::Tick(_) => false,
    }
}

// The number of lines of two texts that are equal at the same place.
fn equal_lines(one: &str, other: &str) -> usize {
    one.lines()
        .zip(other.lines())
        .filter(|(a, b)| a == b)
        .count()
}
