//! Calls that wait: short calls that follow one another are made together, so that the desk is asked once.

ghost use Rattle.std.specs.Prelude.{◌≡◌, ◌⊎◌, Option, ℕ, ◌+◌, ◌<◌, ◌≤◌, List, [], ◌∷◌, ◌++◌, drop, length, take, IfErr, IfOk, OnErr, OnOk};
ghost use Rattle.std.specs.Io.KnownBytes.{Appends};
ghost use Rattle.rig_model.specs.config.Roster.{Rig};
ghost use Rattle.rig_model.specs.Sessions.{Outcome, State};
ghost use Rattle.rig_sessions.specs.inner.Answered.{AreAnswered, AreTaken, AreTold, AreUnanswered, AreWaiting};

use crate::calls::Calls;
use crate::faults::TalkFault;
use crate::writing::{refuse, say, say_reply};
use locked_book::faults::DeskFault;
use locked_book::naming::Naming;
use locked_book::passes::Pass;
use rig_model::config::TenantId;
use rig_model::lines::commands::Command;
use rig_model::lines::grant_lines::GrantCommand;
use rig_model::logged::KeptCall;
use std::alloc::Global;
use std::io::Write;
use std::sync::Wait;
use text_lines::lines::MOST_LINES;

/// What a session needs while it answers lines.
#[derive(Drop)]
pub(crate) struct Work {
    // A buffer for a reply. It is overwritten for each.
    pub(crate) text: String,
    // Commands of one tenant that were asked for and aren't called yet.
    tenant: TenantId,
    waiting: Vec<Command>,
}

impl Work {
    pub(crate) fn new(alloc: Global) -> Work
        ensures { result.waiting.items ≡ [] }
    {
        Work {
            text: String::new(alloc),
            tenant: 0,
            waiting: Vec::new(alloc),
        }
    }

    /// Adds a tenant's command to those that wait, to be called with them, if it is short and there is space for it. Else returns the
    /// command.
    pub(crate) fn wait(&mut self, tenant: TenantId, command: Command) -> Result<(), Command>
        ensures waits { OnOk result ((self.new.waiting.items ≡ self.old.waiting.items ++ command ∷ []) × (self.new.tenant ≡ tenant)) }
        ensures back { IfErr result (λ c. c ≡ command) }
        ensures refused { OnErr result ((self.new.waiting.items ≡ self.old.waiting.items) × (self.new.tenant ≡ self.old.tenant)) }
    {
        if !is_short(&command) || self.waiting.len() >= MOST_LINES {
            return Err(command);
        }
        let Ok(()) = self.waiting.reserve(1) else {
            return Err(command);
        };
        self.tenant = tenant;
        self.waiting.push_reserved(command);
        Ok(())
    }
}

// Whether neither the command nor its reply has a text or a list.
fn is_short(command: &Command) -> bool {
    match command {
        Command::Load(_) | Command::Replace(_) | Command::ShowAll | Command::Trace => false,
        Command::Grants(GrantCommand::Rows) => false,
        _ => true,
    }
}

/// Makes the waiting calls, and writes the reply to each, or the reason why there is none.
pub(crate) fn call_waiting<N: Naming, R: Wait, D: Calls<N>, W: Write>(
    rt: &R,
    desk: &D,
    pass: &mut Pass<N>,
    writer: &mut W,
    work: &mut Work,
) -> Result<(), TalkFault>
    ensures ok { OnOk result ((config : Rig) (s : State) (texts : List (List ℕ)) → AreWaiting config s work.old.tenant texts work.old.waiting.items
        → AreAnswered config s texts s pass.old pass.new (Appends (W.contents writer.old) (W.contents writer.new))) }
    ensures fault { IfErr result (λ fault. (config : Rig) (s : State) (texts : List (List ℕ)) → AreWaiting config s work.old.tenant texts work.old.waiting.items
        → AreUnanswered config s texts pass.old pass.new fault) }
    ensures none { OnOk result (work.new.waiting.items ≡ []) }
    ensures seat { pass.new.seat ≡ pass.old.seat }
{
    let mut at = 0;
    while at < work.waiting.len() {
        let commands = behind(&work.waiting, at);
        at += call_some(
            rt,
            desk,
            pass,
            writer,
            work.tenant,
            commands,
            &mut work.text,
        )?;
    }
    work.waiting.clear();
    Ok(())
}

/// Makes the waiting calls, writes the reply to each, and then these bytes.
pub(crate) fn call_and_say<N: Naming, R: Wait, D: Calls<N>, W: Write>(
    rt: &R,
    desk: &D,
    pass: &mut Pass<N>,
    writer: &mut W,
    work: &mut Work,
    bytes: &[u8],
) -> Result<(), TalkFault>
    ensures ok { OnOk result ((between : Option (List ℕ)) × ((config : Rig) (s : State) (texts : List (List ℕ)) → AreWaiting config s work.old.tenant texts work.old.waiting.items
        → AreAnswered config s texts s pass.old pass.new (Appends (W.contents writer.old) between)) × Appends between (W.contents writer.new) bytes.now) }
    ensures fault { IfErr result (λ fault. (config : Rig) (s : State) (texts : List (List ℕ)) → AreWaiting config s work.old.tenant texts work.old.waiting.items
        → ((fault ≡ TalkFault.Write) × AreTaken config s texts s pass.old pass.new) ⊎ AreUnanswered config s texts pass.old pass.new fault) }
    ensures none { OnOk result (work.new.waiting.items ≡ []) }
    ensures seat { pass.new.seat ≡ pass.old.seat }
{
    call_waiting(rt, desk, pass, writer, work)?;
    say(writer, bytes)
}

// Makes the first of these calls of a tenant, and writes the reply to each. Returns their number, which is at least one.
fn call_some<N: Naming, R: Wait, D: Calls<N>, W: Write>(
    rt: &R,
    desk: &D,
    pass: &mut Pass<N>,
    writer: &mut W,
    tenant: TenantId,
    commands: &[Command],
    text: &mut String,
) -> Result<usize, TalkFault>
    requires { 0 < length commands.now }
    ensures some { IfOk result (λ n. (0 < n) × (n ≤ length commands.now)) }
    ensures ok { IfOk result (λ n. (config : Rig) (s : State) (texts : List (List ℕ)) → AreWaiting config s tenant texts commands.now
        → AreAnswered config s (take n texts) s pass.old pass.new (Appends (W.contents writer.old) (W.contents writer.new))) }
    ensures fault { IfErr result (λ fault. (config : Rig) (s : State) (texts : List (List ℕ)) → AreWaiting config s tenant texts commands.now
        → AreUnanswered config s texts pass.old pass.new fault) }
    ensures seat { pass.new.seat ≡ pass.old.seat }
{
    let before = pass.calls().len();
    let answer = desk.call_all(rt, *text.allocator(), pass, tenant, commands);
    let calls = behind(pass.calls(), before);
    say_replies(writer, calls, text)?;
    match answer {
        Ok(()) => Ok(calls.len()),
        Err(fault) => match fault {
            DeskFault::Memory => {
                say(writer, b"err memory\n")?;
                Ok(calls.len() + 1)
            }
            DeskFault::PassFull => Err(refuse(writer, DeskFault::PassFull)),
            DeskFault::Strange(length) => Err(refuse(writer, DeskFault::Strange(length))),
        },
    }
}

// The elements after the first `count`.
fn behind<T>(all: &[T], count: usize) -> &[T]
    requires { count ≤ length all.now }
    ensures { result.now ≡ drop count all.now }
{
    &all[count..]
}

// Writes the replies to these calls. If there is no memory for the text of one, writes that in its place.
fn say_replies<W: Write>(
    writer: &mut W,
    calls: &[KeptCall],
    text: &mut String,
) -> Result<(), TalkFault>
    ensures told { OnOk result ((outcomes : List Outcome) × (said : List ℕ) × AreTold calls.now outcomes said × Appends (W.contents writer.old) (W.contents writer.new) said) }
    ensures fault { IfErr result (λ fault. fault ≡ TalkFault.Write) }
{
    for call in calls {
        say_reply(writer, &call.as_call().reply, text)?;
    }
    Ok(())
}
