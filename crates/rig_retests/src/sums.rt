//! The lines below a trial: how much of the script was left out, and whether the answers are the same.

use host_core::events::Event;
use std::alloc::AllocError;

/// The numbers of lines, events and answers.
#[derive(Drop)]
pub struct Sum {
    lines: usize,
    // The lines of which no event stays, and those of which only some do.
    left_out: usize,
    in_part: usize,
    events: usize,
    events_left_out: usize,
    ticks: usize,
    answers: usize,
}

impl Sum {
    /// Creates the sum of no line.
    pub fn new() -> Sum {
        Sum {
            lines: 0,
            left_out: 0,
            in_part: 0,
            events: 0,
            events_left_out: 0,
            ticks: 0,
            answers: 0,
        }
    }

    /// Counts a line with `events` events, of which `left_out` are left out.
    pub fn add_line(&mut self, events: usize, left_out: usize) {
        self.lines = self.lines.saturating_add(1);
        self.events = self.events.saturating_add(events);
        self.events_left_out = self.events_left_out.saturating_add(left_out);
        if left_out == 0 {
            return;
        }
        if left_out < events {
            self.in_part = self.in_part.saturating_add(1);
        } else {
            self.left_out = self.left_out.saturating_add(1);
        }
    }

    /// Counts an event among the ticks, if it is one.
    pub fn add_event(&mut self, event: &Event) {
        if let Event::Tick(_) = event {
            self.ticks = self.ticks.saturating_add(1);
        }
    }

    /// Counts an answer of the tenant.
    pub fn add_answer(&mut self) {
        self.answers = self.answers.saturating_add(1);
    }
}

/// Writes what was left out, and whether the answers of the tenant with this name are the same in both runs.
///
/// # Errors
/// Out of memory.
pub fn write_sum(
    text: &mut String,
    name: &str,
    sum: &Sum,
    is_same: bool,
) -> Result<(), AllocError> {
    let lines = sum.lines;
    let left_out = sum.left_out;
    let in_part = sum.in_part;
    let events = sum.events;
    let events_left_out = sum.events_left_out;
    let ticks = sum.ticks;
    let answers = sum.answers;
    text.push('\n')?;
    if events_left_out == 0 {
        writeln!(text, "Nothing is left out of {lines} lines.")?;
    } else {
        writeln!(
            text,
            "Left out: {left_out} of {lines} lines, and a part of {in_part} more; {events_left_out} of {events} events. Ticks: {ticks}, all kept."
        )?;
    }
    let same = if is_same { "the same" } else { "NOT the same" };
    writeln!(
        text,
        "Answers of {name}: {answers}, {same} in both runs, byte for byte."
    )
}
