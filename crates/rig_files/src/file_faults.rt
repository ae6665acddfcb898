//! What is wrong with the files of scripts, pictures and runs.

ghost use Rattle.std.specs.Prelude.{◌≡◌};
ghost use Rattle.rig_files.specs.inner.Faults.{text_of_fault};

use std::fmt;

/// Which file of a script, a picture or a graph can't be read or written.
#[derive(Clone, Copy, Debug, PartialEq, Eq)]
pub enum PictureFault {
    /// The value change dump can't be written.
    Dump,
    /// The file of a script can't be read.
    Script,
    /// The timeline can't be written.
    Timeline,
    /// The graph of retests can't be written.
    Graph,
    /// The save file of a value change dump can't be written.
    Save,
}

impl PictureFault {
    /// The line of standard error.
    pub fn as_str(self) -> &'static str
        ensures { result.now ≡ text_of_fault self }
    {
        match self {
            PictureFault::Dump => "vcd: unwritable",
            PictureFault::Script => "script: unreadable",
            PictureFault::Timeline => "timeline: unwritable",
            PictureFault::Graph => "dot: unwritable",
            PictureFault::Save => "gtkwave: unwritable",
        }
    }
}

/// What is wrong with the files of a run. Its `Display` is the line of standard error.
#[derive(Clone, Copy, Debug, PartialEq, Eq)]
pub enum RunFileFault {
    /// The run isn't there, can't be read, or isn't UTF-8.
    Unreadable,
    /// The line with this number is a reply, and no line of the script is right above it.
    NoLine(usize),
    /// A run whose replies are compared has no line of a script.
    NoLines,
    /// The suite can't be written.
    Suite,
    /// The run of a script can't be written.
    Unwritable,
}

impl fmt::Display for RunFileFault {
    fn fmt<W: fmt::Write>(&self, f: &mut fmt::Formatter<W>) -> fmt::Result {
        match self {
            RunFileFault::Unreadable => write!(f, "run: unreadable"),
            RunFileFault::NoLine(number) => write!(
                f,
                "run: line {number}: this is a reply, and there is no line above that it answers"
            ),
            RunFileFault::NoLines => write!(f, "run: no lines"),
            RunFileFault::Suite => write!(f, "junit: unwritable"),
            RunFileFault::Unwritable => write!(f, "run: unwritable"),
        }
    }
}
