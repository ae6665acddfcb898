//! A script with a report of what went wrong in it.

ghost use Rattle.std.specs.Prelude.{◌≡◌, [], ◌++◌, All, Some, List, IfErr, IfOk, IfSome, OnOk, length};
ghost use Rattle.std.specs.Io.KnownBytes.{Appends};
ghost use Rattle.rig_model.specs.Answered.{IsText};
ghost use Rattle.rig_model.specs.Script.{script_text_of};
ghost use Rattle.rig_model.specs.TextLines.{cut};
ghost use Rattle.rig_model.specs.declared.events.Event.{Event};
ghost use Rattle.rig_reports.specs.inner.Reported.{report_of, report_on_bad_line};
ghost use Rattle.rig_reports.specs.inner.Reporting.{ForEachPastOf, running_up_to, overruns_of};
ghost use Rattle.rig_reports.specs.inner.Watched.{IsWatchedBrokenOff};
ghost use Rattle.rig_script.specs.BrokenOff.{AreFewRead, ForNewHostReading};

use crate::overruns::{overruns, running};
use host_core::hosts::Host;
use rig_model::config::Config;
use rig_script::courses::Course;
use rig_script::faults::ScriptFault;
use rig_script::listeners::{Answered, Listener};
use rig_script::{Heard, heard_script};
use script_reports::reports::{Overrun, Report};
use std::alloc::{AllocError, Global};
use std::io::{Read, Write};

/// Answers the lines of a reader as `rig_script::script` does, and returns a report about them.
///
/// The report has a line for each reply that was an `err`, for each overrun, and for the line that ended the script, if one was too long
/// or not UTF-8.
///
/// # Errors
/// As `script`; `Memory` also if an allocation for the report fails. If it fails after the first line was read, all lines are answered.
pub fn strict_script<R: Read, W: Write>(
    alloc: Global,
    reader: &mut R,
    writer: &mut W,
    config: &Config,
) -> Result<Report, ScriptFault>
    ensures written { OnOk result (ForNewHostReading config.now (R.remaining reader.old) (λ setting bytes.
        Appends (W.contents writer.old) (W.contents writer.new) (script_text_of setting bytes))) }
    ensures report { IfOk result (λ report. ForNewHostReading config.now (R.remaining reader.old) (λ setting bytes. report ≡ report_of setting bytes)) }
    ensures end { OnOk result (IfSome (R.remaining reader.old) (λ bytes. All IsText (cut bytes) → R.remaining reader.new ≡ Some [])) }
    ensures fault { IfErr result (λ fault. ForNewHostReading config.now (R.remaining reader.old)
        (IsWatchedBrokenOff (R.remaining reader.new) (Appends (W.contents writer.old) (W.contents writer.new)) fault)) }
    ensures reads { AreFewRead result (R.remaining reader.old) (R.remaining reader.new) }
{
    let mut host = Host::new(alloc, config, 0)?;
    let listener = ReportListener::new(alloc, &mut host)?;
    let heard = heard_script(alloc, reader, writer, host, listener)?;
    let Heard {
        listener,
        host: _,
        course,
    } = heard;
    let ReportListener { report, ran: _ } = listener;
    Ok(with_end(alloc, report, course)?)
}

// The report, with the line that ended the script.
fn with_end(alloc: Global, mut report: Report, course: Course) -> Result<Report, AllocError>
    ensures { IfOk result (λ whole. whole ≡ report ++ report_on_bad_line course.bad_line) }
{
    if let Some(number) = course.bad_line {
        report.add_end(alloc, number)?;
    }
    Ok(report)
}

// Reports about the lines that it hears.
#[derive(Drop)]
struct ReportListener {
    report: Report,
    // Which tenants run, by their places in the roster.
    ran: Vec<bool>,
}

impl ReportListener {
    // A listener that has heard nothing yet, of a new host.
    fn new(alloc: Global, host: &mut Host) -> Result<ReportListener, AllocError>
        ensures same { host.new ≡ host.old }
        ensures report { IfOk result (λ listener. listener.report ≡ []) }
        ensures ran { IfOk result (λ listener. ForEachPastOf host.old (λ setting past. listener.ran.items ≡ running_up_to setting past (length setting.config.tenants))) }
    {
        Ok(ReportListener {
            report: Report::new(alloc),
            ran: running(alloc, host)?,
        })
    }
}

impl Listener for ReportListener {
    ghost use Rattle.rig_reports.specs.inner.Reporting.{IsReporting};

    ghost heard = { λ it setting texts. IsReporting setting it.report it.ran.items texts };

    fn hear(
        &mut self,
        alloc: Global,
        host: &mut Host,
        line: Answered<'_>,
    ) -> Result<(), AllocError> {
        let stops = overruns_at(alloc, host, &line, self.ran.as_slice())?;
        self.ran = running(alloc, host)?;
        self.report.add_line(
            alloc,
            line.number,
            line.text,
            line.refusal(),
            stops.as_slice(),
        )
    }
}

// The overruns at the instant that a line gave; none if it gave no instant. `ran` says which tenants ran before the line.
fn overruns_at(
    alloc: Global,
    host: &mut Host,
    line: &Answered<'_>,
    ran: &[bool],
) -> Result<Vec<Overrun>, AllocError>
    ensures same { host.new ≡ host.old }
    ensures each { IfOk result (λ stops. (before : List Event) → ForEachPastOf host.old (λ setting past. ran.now ≡ running_up_to setting before (length setting.config.tenants)
        → stops.items ≡ overruns_of setting line.now.events.items before past)) }
{
    if line.is_instant() {
        overruns(alloc, host, ran)
    } else {
        Ok(Vec::new(alloc))
    }
}
