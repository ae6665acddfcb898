//! The entries of a log as text.

ghost use Rattle.std.specs.Prelude.{◌≡◌, ◌++◌, OnOk, string_bytes};
ghost use Rattle.std.specs.List.{flat_map};
ghost use Rattle.rig_history.specs.Entries.{text_of_asked, text_of_call, text_of_entry, text_of_job, text_of_number, text_of_tick, word_of_value};
ghost use Rattle.rig_model.specs.config.Roster.{name_at};

use crate::commands::{add_command, add_value, add_words};
use itoa::Buffer;
use rig_model::config::{Config, TenantId};
use rig_model::jobs::JobId;
use rig_model::lines::replies::add_reply;
use rig_model::logged::{Call, Logged, SeatId};
use std::alloc::AllocError;

/// Appends an entry of a log, with an LF after each of its lines. `tick` is the number of the next instant before the entry. Tenants have
/// their names in the roster, and no name where the roster has no such place.
///
/// # Errors
/// Out of memory. After an error the content of the text is unspecified.
pub fn add_entry(
    text: &mut String,
    config: &Config,
    tick: u64,
    entry: &Logged,
) -> Result<(), AllocError>
    ensures { OnOk result (string_bytes text.new ≡ string_bytes text.old ++ text_of_entry config.now tick entry.now) }
{
    match entry {
        Logged::Call(seat, call) => add_call(text, config, *seat, call.as_call()),
        Logged::Tick(frame) => add_tick(text, tick, frame.as_slice()),
        Logged::Done(id) => add_job(text, config, id),
    }
}

// Appends a call: the command, and the reply on the line after it.
fn add_call(text: &mut String, config: &Config, seat: SeatId, call: &Call) -> Result<(), AllocError>
    ensures { OnOk result (string_bytes text.new ≡ string_bytes text.old ++ text_of_call config.now seat call.now) }
{
    add_asked(text, config, seat, call)?;
    text.push_str("\n  ")?;
    add_reply(text, &call.reply)?;
    text.push_str("\n")
}

// Appends what a call asks.
fn add_asked(
    text: &mut String,
    config: &Config,
    seat: SeatId,
    call: &Call,
) -> Result<(), AllocError>
    ensures { OnOk result (string_bytes text.new ≡ string_bytes text.old ++ text_of_asked config.now seat call.now) }
{
    let mut digits = Buffer::new();
    let tenant = name_of(config, call.tenant);
    add_words(text, "call ", digits.format(seat), " ", tenant)?;
    text.push_str(" ")?;
    add_command(text, &call.command)
}

// Appends an instant of this number: its values, and the reply on the line after them.
fn add_tick(text: &mut String, tick: u64, frame: &[i64]) -> Result<(), AllocError>
    ensures { OnOk result (string_bytes text.new ≡ string_bytes text.old ++ text_of_tick tick frame.now) }
{
    text.push_str("tick")?;
    add_values(text, frame)?;
    add_number(text, tick)
}

// Appends the reply to an instant of this number, on a new line.
fn add_number(text: &mut String, tick: u64) -> Result<(), AllocError>
    ensures { OnOk result (string_bytes text.new ≡ string_bytes text.old ++ text_of_number tick) }
{
    let mut digits = Buffer::new();
    text.push_str("\n  ok tick ")?;
    text.push_str(digits.format(tick))?;
    text.push_str("\n")
}

// Appends these values in decimal, each after a blank.
fn add_values(text: &mut String, values: &[i64]) -> Result<(), AllocError>
    ensures { OnOk result (string_bytes text.new ≡ string_bytes text.old ++ flat_map word_of_value values.now) }
{
    for value in values {
        text.push_str(" ")?;
        add_value(text, *value)?;
    }
    Ok(())
}

// Appends the completion of a job.
fn add_job(text: &mut String, config: &Config, id: &JobId) -> Result<(), AllocError>
    ensures { OnOk result (string_bytes text.new ≡ string_bytes text.old ++ text_of_job config.now id.now) }
{
    let mut digits = Buffer::new();
    let tenant = name_of(config, id.tenant);
    add_words(text, "done ", tenant, " ", digits.format(id.tick))?;
    text.push_str(" ")?;
    text.push_str(id.task.as_str())?;
    text.push_str("\n")
}

// The name of the tenant at this place; empty if the roster has no such place.
fn name_of(config: &Config, tenant: TenantId) -> &str
    ensures { result.now ≡ name_at config.now tenant }
{
    match config.tenants().get(tenant) {
        Some(tenant) => tenant.name.as_str(),
        None => "",
    }
}
