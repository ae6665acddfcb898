//! Sheets: SVG pictures, written element by element.
//!
//! A sheet has only numbers, words of this crate, and names of tenants, modes, tasks and ports. Names have only letters, digits and
//! `_`. So nothing has to be escaped for SVG.

use crate::scales::WIDTH;
use std::alloc::{AllocError, Global};

// The look of each class of elements.
const STYLE: &str = "\
<style>
text{font:12px ui-monospace,Menlo,Consolas,'DejaVu Sans Mono',monospace;fill:#1f2937}
.title{font:600 16px system-ui,'Segoe UI','Helvetica Neue',Arial,sans-serif}
.head{font:600 11px system-ui,'Segoe UI','Helvetica Neue',Arial,sans-serif;fill:#6b7280;letter-spacing:.04em}
.note{font:12px system-ui,'Segoe UI','Helvetica Neue',Arial,sans-serif;fill:#4b5563}
.name,.written{text-anchor:end}
.tick{text-anchor:middle;fill:#4b5563}
.value{fill:#111827}
.read{fill:#4b5563}
.range{font-size:10px;fill:#6b7280}
.grid{stroke:#e5e7eb}
.minor{stroke:#f3f4f6}
.rule{stroke:#d1d5db}
.round{stroke:#6b7280;stroke-width:1.5}
.m0{fill:#dbeafe;stroke:#93c5fd}
.m1{fill:#dcfce7;stroke:#86efac}
.m2{fill:#fef3c7;stroke:#fcd34d}
.m3{fill:#fce7f3;stroke:#f9a8d4}
.m4{fill:#ede9fe;stroke:#c4b5fd}
.m5{fill:#ffedd5;stroke:#fdba74}
.m6{fill:#cffafe;stroke:#67e8f9}
.m7{fill:#ecfccb;stroke:#bef264}
.idle{fill:#f9fafb;stroke:#e5e7eb}
.stopped{fill:#e5e7eb;stroke:#9ca3af}
.late{fill:#fee2e2;stroke:#ef4444}
.job{fill:#eff6ff;stroke:#3b82f6}
.open{fill:#eff6ff;stroke:#3b82f6;stroke-dasharray:4 3}
.dropped{fill:#f3f4f6;stroke:#9ca3af;stroke-dasharray:4 3}
.worked{fill:#1d4ed8;stroke:#fff}
.dense{fill:url(#hatch);stroke:none}
.d1{opacity:.25}
.d2{opacity:.5}
.d3{opacity:.75}
.missed{stroke:#dc2626;stroke-width:2.5}
.sensor,.output,.actuator{fill:none;stroke-width:1.8}
.sensor{stroke:#0f766e}
.output{stroke:#7c3aed}
.actuator{stroke:#b45309}
.start{fill:#16a34a}
.switch{fill:#4f46e5}
.replaced{fill:#9333ea}
.stop{fill:#4b5563}
.overrun{fill:#dc2626}
.at-start,.at-switch,.at-replaced,.at-stop,.at-overrun{stroke-width:1;stroke-dasharray:2 3}
.at-start{stroke:#16a34a}
.at-switch{stroke:#4f46e5}
.at-replaced{stroke:#9333ea}
.at-stop{stroke:#4b5563}
.at-overrun{stroke:#dc2626}
.on-start,.on-switch,.on-replaced,.on-stop,.on-overrun{stroke-width:1.4}
.on-start{stroke:#16a34a}
.on-switch{stroke:#4f46e5}
.on-replaced{stroke:#9333ea}
.on-stop{stroke:#4b5563}
.on-overrun{stroke:#dc2626;stroke-width:2.4}
.thin{stroke:none}
.late.thin{fill:#dc2626}
</style>
";

// The pattern of jobs that have no box of their own.
const HATCH: &str = "\
<defs><pattern id=\"hatch\" width=\"4\" height=\"4\" patternUnits=\"userSpaceOnUse\">\
<rect width=\"4\" height=\"4\" fill=\"#dbeafe\"/><path d=\"M-1 1l2 -2M0 4l4 -4M3 5l2 -2\" stroke=\"#3b82f6\"/></pattern></defs>
";

/// A box of a picture: its upper left corner, its width and its height.
#[derive(Clone, Copy)]
pub struct Area {
    pub x: u64,
    pub y: u64,
    pub width: u64,
    pub height: u64,
}

/// The written part of a picture.
#[derive(Drop)]
pub struct Sheet {
    text: String,
}

impl Sheet {
    /// An empty sheet.
    pub fn new(alloc: Global) -> Sheet {
        Sheet {
            text: String::new(alloc),
        }
    }

    /// Begins a picture of this height.
    ///
    /// # Errors
    /// Out of memory.
    pub fn begin(&mut self, height: u64) -> Result<(), AllocError> {
        writeln!(
            self.text,
            "<svg xmlns=\"http://www.w3.org/2000/svg\" width=\"{WIDTH}\" height=\"{height}\" viewBox=\"0 0 {} {}\">",
            WIDTH, height
        )?;
        self.text.push_str(STYLE)?;
        self.text.push_str(HATCH)?;
        self.text
            .push_str("<rect width=\"100%\" height=\"100%\" fill=\"#fff\"/>\n")
    }

    /// Ends the picture.
    ///
    /// # Errors
    /// Out of memory.
    pub fn end(&mut self) -> Result<(), AllocError> {
        self.text.push_str("</svg>\n")
    }

    /// Adds what is on the other sheet.
    ///
    /// # Errors
    /// Out of memory.
    pub fn add(&mut self, other: &Sheet) -> Result<(), AllocError> {
        self.text.push_str(other.text.as_str())
    }

    /// Draws a box, with a title that is shown while the pointer is on it.
    ///
    /// # Errors
    /// Out of memory.
    pub fn area(&mut self, class: &str, area: Area, title: &str) -> Result<(), AllocError> {
        let Area {
            x,
            y,
            width,
            height,
        } = area;
        write!(
            self.text,
            "<rect class=\"{class}\" x=\"{x}\" y=\"{y}\" width=\"{width}\" height=\"{height}\" rx=\"3\">"
        )?;
        writeln!(self.text, "<title>{title}</title></rect>")
    }

    /// Draws a part of a band that is too narrow for an outline.
    ///
    /// # Errors
    /// Out of memory.
    pub fn slice(&mut self, class: &str, area: Area, title: &str) -> Result<(), AllocError> {
        let Area {
            x,
            y,
            width,
            height,
        } = area;
        writeln!(
            self.text,
            "<rect class=\"{class} thin\" x=\"{x}\" y=\"{y}\" width=\"{width}\" height=\"{height}\"><title>{title}</title></rect>"
        )
    }

    /// Writes words.
    ///
    /// # Errors
    /// Out of memory.
    pub fn words(&mut self, class: &str, x: u64, y: u64, words: &str) -> Result<(), AllocError> {
        writeln!(
            self.text,
            "<text class=\"{class}\" x=\"{x}\" y=\"{y}\">{words}</text>"
        )
    }

    /// Draws a line from top to bottom.
    ///
    /// # Errors
    /// Out of memory.
    pub fn upright(
        &mut self,
        class: &str,
        x: u64,
        top: u64,
        bottom: u64,
    ) -> Result<(), AllocError> {
        writeln!(
            self.text,
            "<path class=\"{class}\" d=\"M{x} {top}V{bottom}\"/>"
        )
    }

    /// Draws a line from left to right.
    ///
    /// # Errors
    /// Out of memory.
    pub fn level(&mut self, class: &str, y: u64, left: u64, right: u64) -> Result<(), AllocError> {
        writeln!(
            self.text,
            "<path class=\"{class}\" d=\"M{left} {y}H{right}\"/>"
        )
    }

    /// Draws a line, given the commands of its path. Draws nothing if there are none.
    ///
    /// # Errors
    /// Out of memory.
    pub fn line(&mut self, class: &str, commands: &str) -> Result<(), AllocError> {
        if commands.is_empty() {
            return Ok(());
        }
        writeln!(self.text, "<path class=\"{class}\" d=\"{commands}\"/>")
    }

    /// Draws what the commands of a path give, with a title that is shown while the pointer is on it. Draws nothing if there are none.
    ///
    /// # Errors
    /// Out of memory.
    pub fn shape(&mut self, class: &str, commands: &str, title: &str) -> Result<(), AllocError> {
        if commands.is_empty() {
            return Ok(());
        }
        writeln!(
            self.text,
            "<path class=\"{class}\" d=\"{commands}\"><title>{title}</title></path>"
        )
    }

    /// Draws a figure around this point. `commands` are the commands of its path after the first.
    ///
    /// # Errors
    /// Out of memory.
    pub fn figure(
        &mut self,
        class: &str,
        x: u64,
        y: u64,
        commands: &str,
    ) -> Result<(), AllocError> {
        writeln!(
            self.text,
            "<path class=\"{class}\" d=\"M{x} {y}{commands}\"/>"
        )
    }

    /// Draws a point, with a title that is shown while the pointer is on it.
    ///
    /// # Errors
    /// Out of memory.
    pub fn point(&mut self, class: &str, x: u64, y: u64, title: &str) -> Result<(), AllocError> {
        writeln!(
            self.text,
            "<circle class=\"{class}\" cx=\"{x}\" cy=\"{y}\" r=\"3.5\"><title>{title}</title></circle>"
        )
    }

    /// The picture.
    pub fn into_text(self) -> String {
        let Sheet { text } = self;
        text
    }
}
