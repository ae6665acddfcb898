//! Why a reader gives no further line.

use thiserror::Error;

/// Why a reader gives no further line.
#[derive(Clone, Copy, Debug, PartialEq, Eq, Error)]
pub enum LinesFault {
    /// A read failed.
    #[error("reading the input failed")]
    Read,
    /// The writer couldn't be flushed before a read.
    #[error("writing a reply failed")]
    Write,
    /// 1,048,576 reads gave bytes, and the end wasn't found.
    #[error("the input had not ended after 1048576 reads")]
    Turns,
    /// Out of memory for the next line, of which bytes were read.
    #[error("no memory for a line")]
    Memory,
}
