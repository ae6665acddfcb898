//! A host that answers the lines of a script.

ghost use Rattle.std.specs.Prelude.{◌≡◌, [], ◌∷◌, ◌++◌, ◌<◌, Some, true, codes, length, All, IfOk, IfErr, IfSome, OnOk, string_bytes};
ghost use Rattle.std.specs.Io.KnownBytes.{Appends};
ghost use Rattle.rig_model.specs.lines.Replies.{text_of_reply};
ghost use Rattle.rig_model.specs.lines.Words.{words_of};
ghost use Rattle.rig_model.specs.declared.lines.commands.Command.{Command};
ghost use Rattle.rig_model.specs.declared.lines.replies.Reply.{Reply};
ghost use Rattle.host_core.specs.HostStanding.{ForEachState, TakesEvent, line_of};
ghost use Rattle.rig_model.specs.HostState.{row_at};
ghost use Rattle.rig_model.specs.Views.{after_command};
ghost use Rattle.rig_model.specs.declared.events.Event.{Event};
ghost use Rattle.rig_model.specs.Answered.{reply_line, IsText};
ghost use Rattle.rig_model.specs.TextLines.{cut};
ghost use Rattle.rig_script.specs.cited.HostAnswers.{Adds, AnswersLine, CarriesOut, Holds, IsHostAfter};
ghost use Rattle.rig_script.specs.inner.Refused.{IsAddressee, is_refused};
ghost use Rattle.rig_script.specs.inner.Script.{HasSpeaker};
ghost use Rattle.std.specs.Fmt.{decimal};
ghost use Rattle.rig_model.specs.Script.{operator, tenant_step, operator_step, text_of_lines, tick_step, work_step, work_step_of, outstanding_after, script_text_of};
ghost use Rattle.rig_script.specs.BrokenOff.{IsScriptBrokenOff, ForNewHostReading, AreFewRead};

use crate::answers::{Answers, answer_lines};
use crate::faults::{ScriptFault, Unanswered};
use crate::records::{Record, Unrecorded};
use crate::speakers::{Speaker, who_is};
use host_core::hosts::{Host, TickFault};
use itoa::Buffer;
use rig_model::config::{Config, TenantId};
use rig_model::lines::command_lines::{LineFault, command_of, name_shown};
use rig_model::lines::commands::Command;
use rig_model::lines::ports::PortName;
use rig_model::lines::replies::{Reply, add_reply, add_shown};
use rig_model::lines::words;
use rig_model::operator_lines::{OperatorLine, operator_line};
use std::alloc::{AllocError, Global};
use std::io::{Read, Write};
use tenant_programs::prepared::prepare;

impl Answers for Host {
    ghost is_after = { λ host setting texts past. IsHostAfter setting host past };

    fn answer(&mut self, alloc: Global, line: &str, text: &mut String) -> Result<(), Unanswered> {
        let _is_refused = carry_out(alloc, self, &mut Unrecorded, line, text)?;
        Ok(())
    }
}

/// Carries out a line of a script. A tenant's line is a command, and the operator's is `tick`, `work`, `work TENANT` or `lines`. Reports the
/// line's events to `events`. Replaces the text with the reply, which is empty for a line that has none. Returns whether the line was refused.
///
/// # Errors
/// Out of memory for a command, an instant, its events or the reply. The text's content is then unspecified.
pub(crate) fn carry_out<R: Record>(
    alloc: Global,
    host: &mut Host,
    events: &mut R,
    line: &str,
    text: &mut String,
) -> Result<bool, Unanswered>
    ensures { AnswersLine line.now (R.has_recorded events.old) (R.has_recorded events.new) host.old host.new result (Holds text.new) }
{
    text.clear();
    let (word, rest) = words::cut(line);
    let speaker = who_is(host.config(), word);
    match speaker {
        Speaker::Nobody => Ok(false),
        Speaker::Operator => with_speaker(speaker, operator_step(alloc, host, events, rest, text)),
        Speaker::Tenant(tenant) => {
            with_speaker(
                speaker,
                tenant_line(alloc, host, events, tenant, word, rest, text),
            )
        }
        Speaker::Unknown => with_speaker(speaker, refuse(text, "host", "err who")),
    }
}

// The same result, with the speaker in the error.
fn with_speaker(speaker: Speaker, answered: Result<bool, AllocError>) -> Result<bool, Unanswered>
    ensures { HasSpeaker speaker answered result }
{
    match answered {
        Ok(is_refused) => Ok(is_refused),
        Err(_) => Err(Unanswered { speaker }),
    }
}

/// Answers the lines of a reader, in their order, until the input or the script ends. A tenant's line is a command, and the operator's is
/// `tick`, `work`, `work TENANT` or `lines`. The host is new, and its first tick is 0. If each line is UTF-8 of at most 16,384 bytes,
/// nothing is left unread. Any other line ends the script. No more is read than 1,048,576 reads of 4,096 bytes give.
///
/// # Errors
/// `Read`, `Write`, `Turns` and `Memory` as in `answer_lines`. `Turns` occurs only if the input has 1,048,576 bytes or more. `Memory` also if
/// there is no memory for the host; then nothing was read or written.
pub fn script<R: Read, W: Write>(
    alloc: Global,
    reader: &mut R,
    writer: &mut W,
    config: &Config,
) -> Result<(), ScriptFault>
    ensures written { OnOk result (ForNewHostReading config.now (R.remaining reader.old) (λ setting bytes.
        Appends (W.contents writer.old) (W.contents writer.new) (script_text_of setting bytes))) }
    ensures end { OnOk result (IfSome (R.remaining reader.old) (λ bytes. All IsText (cut bytes) → R.remaining reader.new ≡ Some [])) }
    ensures fault { IfErr result (λ fault. ForNewHostReading config.now (R.remaining reader.old)
        (IsScriptBrokenOff (R.remaining reader.new) (Appends (W.contents writer.old) (W.contents writer.new)) fault)) }
    ensures reads { AreFewRead result (R.remaining reader.old) (R.remaining reader.new) }
{
    let mut host = Host::new(alloc, config, 0)?;
    answer_lines(alloc, reader, writer, &mut host)?;
    Ok(())
}

// The step of a tenant's line, given the part after the tenant's name.
fn tenant_line<R: Record>(
    alloc: Global,
    host: &mut Host,
    events: &mut R,
    tenant: TenantId,
    name: &str,
    line: &str,
    text: &mut String,
) -> Result<bool, AllocError>
    requires within { tenant < length host.old.config.tenants }
    requires named { IsAddressee name.now }
    ensures { CarriesOut (λ setting past. tenant_step setting past tenant name.now line.now) (R.has_recorded events.old) (R.has_recorded events.new) host.old host.new result (Adds text.old text.new) }
{
    let Some(shown) = name_shown(line) else {
        return command_line(alloc, host, events, tenant, name, line, text);
    };
    let port = PortName {
        task: None,
        name: shown,
    };
    events.command(alloc, tenant, &Command::ShowPort(port.copy()))?;
    show_port(host, tenant, &port, name, text)
}

// The step of a tenant's line, by its command. Not inlined, since the stack space of a command would then be cleared for each line.
#[inline(never)]
fn command_line<R: Record>(
    alloc: Global,
    host: &mut Host,
    events: &mut R,
    tenant: TenantId,
    name: &str,
    line: &str,
    text: &mut String,
) -> Result<bool, AllocError>
    requires within { tenant < length host.old.config.tenants }
    requires named { IsAddressee name.now }
    ensures { CarriesOut (λ setting past. tenant_step setting past tenant name.now line.now) (R.has_recorded events.old) (R.has_recorded events.new) host.old host.new result (Adds text.old text.new) }
{
    let command = match command_of(alloc, line) {
        Ok(command) => command,
        Err(LineFault::BadCommand) => return refuse(text, name, "err bad-command"),
        Err(LineFault::Memory) => return Err(AllocError),
    };
    events.command(alloc, tenant, &command)?;
    answer_command(alloc, host, tenant, command, name, text)
}

// The answer to `show port` of a tenant.
#[inline(always)]
fn show_port(
    host: &Host,
    tenant: TenantId,
    port: &PortName,
    name: &str,
    text: &mut String,
) -> Result<bool, AllocError>
    requires { tenant < length host.now.config.tenants }
    ensures reply { OnOk result (ForEachState host.now (λ setting state. Adds text.old text.new (reply_line name.now (text_of_reply (after_command setting tenant (Command.ShowPort port.now) (row_at state tenant)).reply)))) }
    ensures refused { IfOk result (λ refused. ForEachState host.now (λ setting state. refused ≡ is_refused (after_command setting tenant (Command.ShowPort port.now) (row_at state tenant)).reply)) }
    ensures step { TakesEvent (Event.Own tenant (Command.ShowPort port.now)) host.now host.now }
{
    match host.port_value(tenant, port) {
        Ok(value) => {
            write_shown(text, name, port, value)?;
            Ok(false)
        }
        Err(refusal) => {
            write_reply(text, name, &Reply::Refused(refusal))?;
            Ok(true)
        }
    }
}

// The answer to a tenant's command.
fn answer_command(
    alloc: Global,
    host: &mut Host,
    tenant: TenantId,
    command: Command,
    name: &str,
    text: &mut String,
) -> Result<bool, AllocError>
    requires { tenant < length host.old.config.tenants }
    ensures reply { OnOk result (ForEachState host.old (λ setting state. Adds text.old text.new (reply_line name.now (text_of_reply (after_command setting tenant command (row_at state tenant)).reply)))) }
    ensures refused { IfOk result (λ refused. ForEachState host.old (λ setting state. refused ≡ is_refused (after_command setting tenant command (row_at state tenant)).reply)) }
    ensures step { OnOk result (TakesEvent (Event.Own tenant command) host.old host.new) }
{
    let mut left = None;
    let reply = host.carry_out(tenant, prepare(alloc, command), &mut left);
    drop(left);
    if reply.is_memory() {
        return Err(AllocError);
    }
    write_reply(text, name, &reply)?;
    Ok(is_refused(&reply))
}

// Whether the reply to a command is a refusal.
fn is_refused(reply: &Reply) -> bool
    ensures { result ≡ is_refused reply.now }
{
    matches!(reply, Reply::Refused(_))
}

// The step of an operator's line, given the part after `op`.
fn operator_step<R: Record>(
    alloc: Global,
    host: &mut Host,
    events: &mut R,
    line: &str,
    text: &mut String,
) -> Result<bool, AllocError>
    ensures { CarriesOut (λ setting past. operator_step setting past (words_of line.now)) (R.has_recorded events.old) (R.has_recorded events.new) host.old host.new result (Adds text.old text.new) }
{
    match operator_line(line) {
        OperatorLine::Tick(values) => tick(alloc, host, events, values, text),
        OperatorLine::Lines => {
            add_line_values(text, host)?;
            Ok(false)
        }
        OperatorLine::Work => complete_all(host, events, text),
        OperatorLine::WorkOf(name) => complete_tenant(host, events, name, text),
        _ => refuse(text, "op", "err bad-command"),
    }
}

// The step of a `tick`, given the words after it.
fn tick<R: Record>(
    alloc: Global,
    host: &mut Host,
    events: &mut R,
    values: &str,
    text: &mut String,
) -> Result<bool, AllocError>
    ensures { CarriesOut (λ setting past. operator_step setting past (codes "tick" ∷ words_of values.now)) (R.has_recorded events.old) (R.has_recorded events.new) host.old host.new result (Adds text.old text.new) }
{
    match words::values_of_words(alloc, values)? {
        Some(frame) => instant(alloc, host, events, frame.as_slice(), text),
        None => refuse(text, "op", "err bad-command"),
    }
}

// The step of an instant with this frame.
fn instant<R: Record>(
    alloc: Global,
    host: &mut Host,
    events: &mut R,
    frame: &[i64],
    text: &mut String,
) -> Result<bool, AllocError>
    ensures { CarriesOut (λ setting past. tick_step setting past frame.now) (R.has_recorded events.old) (R.has_recorded events.new) host.old host.new result (Adds text.old text.new) }
{
    let number = host.clock();
    match host.instant(frame) {
        Ok(()) => {
            events.tick(alloc, frame)?;
            tick_reply(text, number)?;
            Ok(false)
        }
        Err(TickFault::BadFrame) => refuse(text, "op", "err bad-frame"),
        Err(TickFault::ClockEnded) => refuse(text, "op", "err clock-ended"),
        Err(TickFault::Memory) => Err(AllocError),
    }
}

// Runs and completes all outstanding jobs, and replies with their number.
fn complete_all<R: Record>(
    host: &mut Host,
    events: &mut R,
    text: &mut String,
) -> Result<bool, AllocError>
    ensures { CarriesOut (λ setting past. work_step (outstanding_after setting past)) (R.has_recorded events.old) (R.has_recorded events.new) host.old host.new result (Adds text.old text.new) }
{
    events.work(host)?;
    let number = host.complete_all();
    work_reply(text, number)?;
    Ok(false)
}

// Runs and completes the outstanding jobs of the tenant of this name, and replies with their number.
fn complete_tenant<R: Record>(
    host: &mut Host,
    events: &mut R,
    name: &str,
    text: &mut String,
) -> Result<bool, AllocError>
    ensures { CarriesOut (λ setting past. work_step_of setting past name.now) (R.has_recorded events.old) (R.has_recorded events.new) host.old host.new result (Adds text.old text.new) }
{
    let Some(tenant) = host.config().place_of(name) else {
        return refuse(text, "op", "err who");
    };
    events.work_of(host, tenant)?;
    let number = host.complete_tenant(tenant);
    work_reply(text, number as u128)?;
    Ok(false)
}

/// Adds the reply to `op lines`: the value of each line of the rig.
///
/// # Errors
/// Out of memory. The text's content is then unspecified.
pub fn add_line_values(text: &mut String, host: &Host) -> Result<(), AllocError>
    ensures { OnOk result (string_bytes text.new ≡ string_bytes text.old ++ reply_line operator (codes "ok lines" ++ text_of_lines (line_of host.now) host.now.config.lines)) }
{
    text.push_str("op ok lines")?;
    add_values(text, host)?;
    text.push('\n')
}

// Adds the value of each line of the rig, each after a space.
fn add_values(text: &mut String, host: &Host) -> Result<(), AllocError>
    ensures { OnOk result (string_bytes text.new ≡ string_bytes text.old ++ text_of_lines (line_of host.now) host.now.config.lines) }
{
    for line in 0..host.config().lines() {
        let value = host.line_value(line);
        write!(text, " {value}")?;
    }
    Ok(())
}

// The reply to an instant of this number.
#[inline(always)]
fn tick_reply(text: &mut String, number: u64) -> Result<(), AllocError>
    ensures { OnOk result (string_bytes text.new ≡ string_bytes text.old ++ reply_line operator (codes "ok tick " ++ decimal number)) }
{
    let mut digits = Buffer::new();
    text.push_str("op ok tick ")?;
    text.push_str(digits.format(number))?;
    text.push('\n')
}

// The reply to `work` that completed this many jobs.
#[inline(always)]
fn work_reply(text: &mut String, number: u128) -> Result<(), AllocError>
    ensures { OnOk result (string_bytes text.new ≡ string_bytes text.old ++ reply_line operator (codes "ok work " ++ decimal number)) }
{
    let mut digits = Buffer::new();
    text.push_str("op ok work ")?;
    text.push_str(digits.format(number))?;
    text.push('\n')
}

// Adds the reply to a tenant's command, as it is written: the tenant's name, a space, the reply, and LF.
#[inline(always)]
fn write_reply(text: &mut String, name: &str, reply: &Reply) -> Result<(), AllocError>
    ensures { OnOk result (string_bytes text.new ≡ string_bytes text.old ++ reply_line name.now (text_of_reply reply.now)) }
{
    write_addressee(text, name)?;
    add_reply(text, reply)?;
    text.push('\n')
}

// Adds the reply to `show port`, as it is written.
#[inline(always)]
fn write_shown(text: &mut String, name: &str, port: &PortName, value: i64) -> Result<(), AllocError>
    ensures { OnOk result (string_bytes text.new ≡ string_bytes text.old ++ reply_line name.now (text_of_reply (Reply.Port (record { port = port.now; value = value })))) }
{
    write_addressee(text, name)?;
    add_shown(text, port, value)?;
    text.push('\n')
}

// Adds the addressee and a space.
#[inline(always)]
fn write_addressee(text: &mut String, name: &str) -> Result<(), AllocError>
    ensures { OnOk result (string_bytes text.new ≡ string_bytes text.old ++ (name.now ++ codes " ")) }
{
    text.push_str(name)?;
    text.push(' ')
}

// Adds a refusal, as it is written: the addressee, a space, the reply, and LF. Returns that the line was refused.
fn refuse(text: &mut String, who: &str, reply: &str) -> Result<bool, AllocError>
    ensures reply { OnOk result (string_bytes text.new ≡ string_bytes text.old ++ reply_line who.now reply.now) }
    ensures refused { IfOk result (λ refused. refused ≡ true) }
{
    write!(text, "{who} {reply}\n")?;
    Ok(true)
}
