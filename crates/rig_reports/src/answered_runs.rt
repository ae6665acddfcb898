//! The replies to the lines of a run.

ghost use Rattle.std.specs.Prelude.{◌≡◌, ◌++◌, IfOk};
ghost use Rattle.rig_model.specs.Base.{Setting};
ghost use Rattle.rig_model.specs.Plays.{IsSettingOf};
ghost use Rattle.rig_reports.specs.inner.Reported.{replies_of, reply_to_bad_line};
ghost use Rattle.script_reports.specs.cited.Runs.{script_of};

use host_core::hosts::Host;
use rig_model::config::Config;
use rig_script::courses::Course;
use rig_script::faults::ScriptFault;
use rig_script::heard_without_output;
use rig_script::listeners::{Answered, Listener};
use script_reports::runs::{Replies, RunLine, script_of};
use std::alloc::{AllocError, Global};

/// Returns the replies to the lines of a run, which are those of `rig_script::script` from a new host on.
///
/// The reply to a line that is too long is `host bye bad-line`, and no line after it is answered.
///
/// # Errors
/// `Memory` if an allocation fails.
pub fn answered_run(
    alloc: Global,
    config: &Config,
    lines: &[RunLine],
) -> Result<Replies, ScriptFault>
    ensures { IfOk result (λ replies. (setting : Setting) → IsSettingOf config.now setting → replies ≡ replies_of setting (script_of lines.now)) }
{
    let script = script_of(alloc, lines)?;
    let mut reader = script.as_str().as_bytes();
    let listener = ReplyListener {
        replies: Replies::new(alloc),
    };
    let (listener, course) = heard_without_output(alloc, &mut reader, config, listener)?;
    Ok(with_end(alloc, listener.replies, course)?)
}

// The replies, with that to the line that ended the script.
fn with_end(alloc: Global, mut replies: Replies, course: Course) -> Result<Replies, AllocError>
    ensures { IfOk result (λ all. all ≡ replies ++ reply_to_bad_line course.bad_line) }
{
    if course.bad_line.is_some() {
        replies.add(alloc, "host bye bad-line")?;
    }
    Ok(replies)
}

// Keeps the replies that it hears.
#[derive(Drop)]
struct ReplyListener {
    replies: Replies,
}

impl Listener for ReplyListener {
    ghost use Rattle.std.specs.Prelude.{◌≡◌};
    ghost use Rattle.rig_reports.specs.inner.Reported.{replies_to};

    ghost heard = { λ it setting texts. it.replies ≡ replies_to setting texts };

    fn hear(
        &mut self,
        alloc: Global,
        _host: &mut Host,
        line: Answered<'_>,
    ) -> Result<(), AllocError> {
        self.replies.add(alloc, line.reply)
    }
}
