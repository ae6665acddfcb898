//! A script with a listener: a host answers the lines, and the listener hears each as it is answered.

ghost use Rattle.std.specs.Prelude.{◌≡◌, ◌+◌, ◌-◌, ◌^◌, ◌||◌, true, false, [], min, All, Some, IfErr, IfOk, IfSome, OnOk};
ghost use Rattle.std.specs.Io.KnownBytes.{Appends};
ghost use Rattle.rig_model.specs.Answered.{IsText};
ghost use Rattle.rig_model.specs.Base.{Setting};
ghost use Rattle.rig_model.specs.Script.{past_after, script_text_of};
ghost use Rattle.rig_model.specs.TextLines.{cut};
ghost use Rattle.rig_script.specs.BrokenOff.{AreFewRead, ForNewHostReading};
ghost use Rattle.rig_script.specs.Courses.{IsCourseOf, is_tenants};
ghost use Rattle.rig_script.specs.Given.{texts_of};
ghost use Rattle.rig_script.specs.cited.Heard.{ForHostReading, HearsLine, IsHeardBrokenOff};
ghost use Rattle.rig_script.specs.cited.HostAnswers.{IsHostAfter};

use crate::answers::{Answers, answer_lines};
use crate::courses::{Course, course_of, is_tenants};
use crate::faults::{ScriptFault, Unanswered};
use crate::host_answers::carry_out;
use crate::listeners::{Answered, Listener};
use crate::speakers::{Speaker, who_speaks};
use host_core::hosts::Host;
use rig_model::config::Config;
use std::alloc::Global;
use std::io;
use std::io::{Read, Write};

/// The listener of a script that was answered, the host after its last line, and how the script went.
#[derive(Drop)]
pub struct Heard<L> {
    pub listener: L,
    pub host: Host,
    pub course: Course,
}

/// Answers the lines of a reader as `script` does, from this host on, and lets the listener hear each line once it is answered.
///
/// Blank lines are heard too. A line that is too long or not UTF-8 isn't. The host is new, and the listener has heard nothing yet.
///
/// # Errors
/// As `script`; `Memory` also if an allocation for the listener fails. All lines are answered then.
pub fn heard_script<R: Read, W: Write, L: Listener + Drop>(
    alloc: Global,
    reader: &mut R,
    writer: &mut W,
    host: Host,
    listener: L,
) -> Result<Heard<L>, ScriptFault>
    requires { (setting : Setting) → IsHostAfter setting host [] → L.heard listener setting [] }
    ensures written { OnOk result (ForHostReading host (R.remaining reader.old) (λ setting bytes.
        Appends (W.contents writer.old) (W.contents writer.new) (script_text_of setting bytes))) }
    ensures heard { IfOk result (λ heard. ForHostReading host (R.remaining reader.old) (λ setting bytes. L.heard heard.listener setting (texts_of (cut bytes)))) }
    ensures course { IfOk result (λ heard. ForHostReading host (R.remaining reader.old) (λ setting bytes.
        IsCourseOf setting.config bytes (R.remaining reader.new) (past_after setting [] (cut bytes)) heard.course)) }
    ensures host { IfOk result (λ heard. ForHostReading host (R.remaining reader.old) (λ setting bytes. IsHostAfter setting heard.host (past_after setting [] (cut bytes)))) }
    ensures fault { IfErr result (λ fault. ForHostReading host (R.remaining reader.old)
        (IsHeardBrokenOff (R.remaining reader.new) (Appends (W.contents writer.old) (W.contents writer.new)) fault)) }
    ensures end { OnOk result (IfSome (R.remaining reader.old) (λ bytes. All IsText (cut bytes) → R.remaining reader.new ≡ Some [])) }
    ensures reads { AreFewRead result (R.remaining reader.old) (R.remaining reader.new) }
{
    let mut driver = Driver {
        host,
        listener,
        answered: 0,
        has_tenant: false,
        is_whole: true,
    };
    let ending = answer_lines(alloc, reader, writer, &mut driver)?;
    let Driver {
        host,
        listener,
        answered,
        has_tenant,
        is_whole,
    } = driver;
    if !is_whole {
        return Err(ScriptFault::Memory);
    }
    Ok(Heard {
        listener,
        host,
        course: course_of(ending, answered, has_tenant),
    })
}

/// Answers the lines of a reader as `script` does, but writes no reply, and lets the listener hear each line once it is answered. Returns the
/// listener, and how the script went.
///
/// # Errors
/// As `heard_script`, without `Write`; `Memory` also if there is no memory for the host.
pub fn heard_without_output<R: Read, L: Listener + Drop>(
    alloc: Global,
    reader: &mut R,
    config: &Config,
    listener: L,
) -> Result<(L, Course), ScriptFault>
    requires { (setting : Setting) → L.heard listener setting [] }
    ensures heard { IfOk result (λ heard. ForNewHostReading config.now (R.remaining reader.old) (λ setting bytes. L.heard heard.0 setting (texts_of (cut bytes)))) }
    ensures course { IfOk result (λ heard. ForNewHostReading config.now (R.remaining reader.old) (λ setting bytes.
        IsCourseOf config.now bytes (R.remaining reader.new) (past_after setting [] (cut bytes)) heard.1)) }
    ensures reads { AreFewRead result (R.remaining reader.old) (R.remaining reader.new) }
{
    let host = Host::new(alloc, config, 0)?;
    let heard = heard_script(alloc, reader, &mut io::sink(), host, listener)?;
    Ok((heard.listener, heard.course))
}

// A host that answers, and the listener that hears its lines.
#[derive(Drop)]
struct Driver<L> {
    host: Host,
    listener: L,
    // The number of answered lines, blank ones too.
    answered: u64,
    // Whether one of them was a tenant's.
    has_tenant: bool,
    // Whether the listener has heard all of them.
    is_whole: bool,
}

impl<L: Listener> Answers for Driver<L> {
    ghost use Rattle.rig_script.specs.inner.Driver.{IsDriverAfter};

    ghost is_after = { λ d setting texts past. IsDriverAfter setting d.host d.answered d.has_tenant d.is_whole (L.heard d.listener) texts past };

    fn answer(&mut self, alloc: Global, line: &str, text: &mut String) -> Result<(), Unanswered> {
        let speaker = who_speaks(self.host.config(), line);
        let mut events = Vec::new(alloc);
        let is_refused = carry_out(alloc, &mut self.host, &mut events, line, text)?;
        self.count(speaker);
        let answered = Answered {
            number: self.answered,
            speaker,
            text: line,
            reply: text.as_str(),
            is_refused,
            events,
        };
        self.pass_on(alloc, answered);
        Ok(())
    }
}

impl<L: Listener> Driver<L> {
    // Counts a line of this speaker.
    fn count(&mut self, speaker: Speaker)
        ensures host { self.new.host ≡ self.old.host }
        ensures listener { self.new.listener ≡ self.old.listener }
        ensures whole { self.new.is_whole ≡ self.old.is_whole }
        ensures answered { self.new.answered ≡ min (self.old.answered + 1) (2 ^ 64 - 1) }
        ensures tenant { self.new.has_tenant ≡ (self.old.has_tenant || is_tenants speaker) }
    {
        self.answered = self.answered.saturating_add(1);
        self.has_tenant = self.has_tenant || is_tenants(speaker);
    }

    // Passes a line on to the listener, unless it was out of memory before.
    fn pass_on(&mut self, alloc: Global, line: Answered<'_>)
        ensures host { self.new.host ≡ self.old.host }
        ensures answered { self.new.answered ≡ self.old.answered }
        ensures tenant { self.new.has_tenant ≡ self.old.has_tenant }
        ensures heard { self.new.is_whole ≡ true → (self.old.is_whole ≡ true) × HearsLine (L.heard self.old.listener) (L.heard self.new.listener) self.old.host line.entry }
    {
        if !self.is_whole {
            return;
        }
        self.is_whole = self.listener.hear(alloc, &mut self.host, line).is_ok();
    }
}
