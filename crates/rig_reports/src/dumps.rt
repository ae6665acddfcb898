//! The value change dump of a script.

ghost use Rattle.std.specs.Prelude.{IfErr, OnOk};
ghost use Rattle.std.specs.Io.KnownBytes.{Appends};
ghost use Rattle.rig_script.specs.BrokenOff.{ForNewHostReading};
ghost use Rattle.rig_model.specs.Script.{script_text_of};
ghost use Rattle.rig_reports.specs.inner.Watched.{IsWatchedBrokenOff};

use crate::dump_jobs::OpenJobs;
use crate::dump_stamps::{Tracked, add_program, dump_of, write_lines, write_tenant};
use crate::questions::statuses_of;
use crate::runs::program_of;
use crate::tasks::period_of;
use host_core::events::Event;
use host_core::hosts::Host;
use rig_model::config::Config;
use rig_model::jobs::JobId;
use rig_model::lines::commands::Command;
use rig_model::lines::replies::Status;
use rig_script::faults::ScriptFault;
use rig_script::listeners::{Answered, Listener};
use rig_script::{Heard, heard_script};
use std::alloc::{AllocError, Global};
use std::io::{ErrorKind, Read, Write};
use tenant_dumps::dumps::Dump;
use tenant_dumps::views::View;

/// The value change dump of a script.
#[derive(Drop)]
pub struct ScriptDump<B> {
    /// What it begins with.
    pub dump: Dump,
    /// Where the rest of it was written.
    pub body: B,
    /// Whether all the rest was written there.
    pub is_written: bool,
}

/// Answers the lines of a reader as `rig_script::script` does, and returns the value change dump of the run. What follows the head is written
/// to `body` as the run goes. If a write fails, nothing more is written there, and all lines are answered.
///
/// The dump has a stamp for each instant, with what the tenants show after it, and one for the end of the script.
///
/// # Errors
/// As `script`; `Memory` also if an allocation for the dump fails. If it fails after the first line was read, all lines are answered.
pub fn script_with_dump<R: Read, W: Write, B: Write + Drop>(
    alloc: Global,
    reader: &mut R,
    writer: &mut W,
    config: &Config,
    body: B,
) -> Result<ScriptDump<B>, ScriptFault>
    ensures written { OnOk result (ForNewHostReading config.now (R.remaining reader.old) (λ setting bytes.
        Appends (W.contents writer.old) (W.contents writer.new) (script_text_of setting bytes))) }
    ensures fault { IfErr result (λ fault. ForNewHostReading config.now (R.remaining reader.old)
        (IsWatchedBrokenOff (R.remaining reader.new) (Appends (W.contents writer.old) (W.contents writer.new)) fault)) }
{
    let host = Host::new(alloc, config, 0)?;
    let listener = listener_of(alloc, config, body)?;
    let heard = heard_script(alloc, reader, writer, host, listener)?;
    Ok(dump_of_end(alloc, heard)?)
}

// The listener before the first line.
fn listener_of<B: Write + Drop>(
    alloc: Global,
    config: &Config,
    body: B,
) -> Result<DumpListener<B>, AllocError> {
    let mut tenants = Vec::new(alloc);
    for _ in config.tenants() {
        tenants.push(Tracked {
            jobs: OpenJobs::new(alloc),
            is_changed: false,
        })?;
    }
    Ok(DumpListener {
        dump: dump_of(alloc, config)?,
        tenants,
        text: String::new(alloc),
        body,
        is_written: true,
    })
}

// The dump, with a stamp for the end of the script.
fn dump_of_end<B: Write + Drop>(
    alloc: Global,
    heard: Heard<DumpListener<B>>,
) -> Result<ScriptDump<B>, AllocError> {
    let Heard {
        mut listener,
        mut host,
        course: _,
    } = heard;
    let statuses = statuses_of(alloc, &mut host)?;
    listener.stamp(alloc, &host, statuses, None)?;
    listener.flush()?;
    Ok(ScriptDump {
        dump: listener.dump,
        body: listener.body,
        is_written: listener.is_written,
    })
}

// Writes the state after each instant into a dump.
#[derive(Drop)]
struct DumpListener<B> {
    dump: Dump,
    // Each tenant, in the order of the roster.
    tenants: Vec<Tracked>,
    // The changes of a stamp.
    text: String,
    body: B,
    // Whether no write to the body failed.
    is_written: bool,
}

impl<B: Write + Drop> DumpListener<B> {
    // Writes a stamp: of an instant with this frame, or of the end of the script.
    fn stamp(
        &mut self,
        alloc: Global,
        host: &Host,
        statuses: Vec<View>,
        frame: Option<&[i64]>,
    ) -> Result<(), AllocError> {
        if !self.is_written {
            return Ok(());
        }
        let tenants = self.tenants.as_mut_slice();
        for tracked in tenants.iter_mut() {
            tracked.jobs.forget_late();
        }
        if frame.is_some() {
            note_instant(tenants, host, statuses.as_slice())?;
        }
        self.dump.begin(&mut self.text)?;
        self.add_programs(alloc, host)?;
        self.write_tenants(alloc, host, statuses)?;
        write_lines(&mut self.text, self.dump.rig(), host, frame)?;
        self.dump.end(&mut self.text)?;
        self.put()
    }

    // Adds the variables of the programs that may be other ones than at the last stamp.
    fn add_programs(&mut self, alloc: Global, host: &Host) -> Result<(), AllocError> {
        let is_late = !self.dump.is_first();
        for tenant in 0..host.config().tenants().len() {
            if let Some(tracked) = self.tenants.get_mut(tenant)
                && tracked.is_changed
                && let Some(scope) = self.dump.tenant(tenant)
            {
                add_program(alloc, scope, host.program(tenant), is_late)?;
                tracked.is_changed = host.waiting_program(tenant).is_some();
            }
        }
        Ok(())
    }

    // Adds what changed of all tenants, given their statuses.
    fn write_tenants(
        &mut self,
        alloc: Global,
        host: &Host,
        statuses: Vec<View>,
    ) -> Result<(), AllocError> {
        let mut statuses = statuses.into_iter();
        for tenant in 0..host.config().tenants().len() {
            if let Some(view) = statuses.next()
                && let Some(tracked) = self.tenants.get(tenant)
                && let Some(scope) = self.dump.tenant(tenant)
            {
                scope.write_status(alloc, &mut self.text, view.status)?;
                write_tenant(&mut self.text, scope, tracked, host, tenant)?;
            }
        }
        Ok(())
    }

    // Writes the text to the body.
    fn put(&mut self) -> Result<(), AllocError> {
        let written = self.body.write_all(self.text.as_str().as_bytes());
        self.see(written)
    }

    // Writes what the body holds back.
    fn flush(&mut self) -> Result<(), AllocError> {
        let flushed = self.body.flush();
        self.see(flushed)
    }

    // Notes whether a write failed. Out of memory is a fault of its own.
    fn see(&mut self, written: std::io::Result<()>) -> Result<(), AllocError> {
        match written {
            Ok(()) => Ok(()),
            Err(error) if error.kind() == ErrorKind::OutOfMemory => Err(AllocError),
            Err(_) => {
                self.is_written = false;
                Ok(())
            }
        }
    }
}

impl<B: Write + Drop> Listener for DumpListener<B> {
    ghost use Rattle.std.specs.Prelude.{⊤};

    ghost heard = { λ it setting texts. ⊤ };

    fn hear(
        &mut self,
        alloc: Global,
        host: &mut Host,
        line: Answered<'_>,
    ) -> Result<(), AllocError> {
        for event in &line.events {
            note_event(self.tenants.as_mut_slice(), event);
        }
        let Some(Event::Tick(frame)) = line.events.first() else {
            return Ok(());
        };
        let statuses = statuses_of(alloc, host)?;
        self.stamp(alloc, host, statuses, Some(frame.as_slice()))
    }
}

// Notes an event of a line.
fn note_event(tenants: &mut [Tracked], event: &Event) {
    match event {
        Event::Own(tenant, command) => {
            if let Some(tracked) = tenants.get_mut(*tenant) {
                note_command(tracked, command);
            }
        }
        Event::Done(id) => {
            if let Some(tracked) = tenants.get_mut(id.tenant) {
                tracked.jobs.complete(id);
            }
        }
        Event::Tick(_) => {}
    }
}

// Notes a command of a tenant. A refused one changes neither its program nor its jobs: a tenant whose `stop` is refused has no jobs.
fn note_command(tracked: &mut Tracked, command: &Command) {
    match command {
        Command::Load(_) | Command::Replace(_) => tracked.is_changed = true,
        Command::Stop => tracked.jobs.stop(),
        _ => {}
    }
}

// Notes the jobs that the last instant ended and released, given the statuses after it.
fn note_instant(tenants: &mut [Tracked], host: &Host, statuses: &[View]) -> Result<(), AllocError> {
    let tick = host.clock().saturating_sub(1);
    for (tracked, view) in tenants.iter_mut().zip(statuses.iter()) {
        tracked.jobs.end_due(tick, &view.status)?;
    }
    for id in &host.outstanding_jobs()? {
        if id.tick == tick
            && let Some(tracked) = tenants.get_mut(id.tenant)
            && let Some(period) = period_at(host, statuses, id)
        {
            tracked.jobs.release(id, period)?;
        }
    }
    Ok(())
}

// The number of ticks from a job's release to its deadline, given the statuses after the release.
fn period_at(host: &Host, statuses: &[View], id: &JobId) -> Option<u64> {
    let program = program_of(host, id.tenant)?;
    match &statuses.get(id.tenant)?.status {
        Status::Running(mode, _) => period_of(program, mode, &id.task),
        _ => None,
    }
}
