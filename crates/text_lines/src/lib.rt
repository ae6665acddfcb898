//! The lines of a reader, however reads divide its bytes.
//!
//! ```text
//! let mut lines = Lines::new(alloc);
//! let line = lines.next_line(&mut reader, &mut writer)?;
//! ```
//!
//! A line is at most 16,384 bytes of UTF-8 before its LF, and one CR at its end is removed. The last line may lack its LF. [`lines`]
//! gives one line after the other, and [`faults`] says why there is no further one.
//!
//! `TextLines.antt` of the crate `rig_model` defines how bytes are cut into lines. `specs/BeforeFaults.antt` defines what a caller
//! that answers lines has answered before a fault.
#![tactic(auto)]

pub mod faults;
pub mod lines;
