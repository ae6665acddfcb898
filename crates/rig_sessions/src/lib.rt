//! Sessions: the lines of a client, each answered before the next one is read.
//!
//! ```text
//! let (pass, ends) = talk(&rt, alloc, &config, &desk, pass, &mut reader, &mut writer);
//! ```
//!
//! [`sessions`] has the step of a line, which depends on who was greeted. [`replies`] has the replies that a session gives without a call.
//! [`calls`] has the trait that takes a session's calls, as a desk does. [`talking::talk`] is a session over a reader and a writer. In the
//! crate `rig_model`, `TextLines.antt` defines how bytes are cut into lines, and `Sessions.antt` which calls a session makes and what it
//! writes. `specs/Talks.antt` defines what was done before a fault. The lines are those of the crate `text_lines`.
#![tactic(auto)]

pub mod calls;
pub mod faults;
pub mod replies;
pub mod sessions;
pub mod talking;
mod waiting;
mod writing;
