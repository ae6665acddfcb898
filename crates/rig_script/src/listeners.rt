//! Listeners of a script, and the lines that they hear.

ghost use Rattle.std.specs.Prelude.{◌≡◌, ℕ, List, OnOk};
ghost use Rattle.std.specs.Option.{option_map};
ghost use Rattle.rig_model.specs.Base.{Setting};
ghost use Rattle.rig_script.specs.cited.Heard.{HearsLine};
ghost use Rattle.rig_script.specs.Instants.{is_instant};
ghost use Rattle.rig_script.specs.cited.Refusals.{answer_in, refusal_of};

use crate::speakers::Speaker;
use host_core::events::Event;
use host_core::hosts::Host;
use std::alloc::{AllocError, Global};

/// A line of a script that was answered.
#[derive(Drop)]
pub struct Answered<'a> {
    /// Counted from 1. Blank lines count too.
    pub number: u64,
    pub speaker: Speaker,
    /// Without its line break.
    pub text: &'a str,
    /// With LF. Empty if the line has no reply.
    pub reply: &'a str,
    pub is_refused: bool,
    /// The events of the line, the oldest first.
    ///
    /// A command of a tenant is one event, whether it is answered or refused. An instant is one event. `work` is one event for each job that
    /// it completed, in the order of the roster. Every other line has no event.
    pub events: Vec<Event>,
}

impl<'a> Answered<'a> {
    /// What the reply says after its addressee, with LF, if the line was refused.
    pub fn refusal(&self) -> Option<&str>
        ensures { option_map (λ r. r.now) result ≡ refusal_of self.now.is_refused self.now.reply.now }
    {
        if self.is_refused {
            Some(answer_in(self.reply))
        } else {
            None
        }
    }

    /// Whether the line gave an instant.
    pub fn is_instant(&self) -> bool
        ensures { result ≡ is_instant self.now.events.items }
    {
        matches!(self.events.first(), Some(Event::Tick(_)))
    }
}

/// A listener of a script.
pub trait Listener {
    // it has heard lines of these texts, the oldest first, which are all of a script so far
    ghost heard: { Self → Setting → List (List ℕ) → Type 0 };

    /// Takes a line that was answered, with the host after it. The host stays as it is.
    ///
    /// # Errors
    /// Out of memory. The listener gets no more lines then.
    fn hear(&mut self, alloc: Global, host: &mut Host, line: Answered<'_>) -> Result<(), AllocError>
        ensures host { host.new ≡ host.old }
        ensures heard { OnOk result (HearsLine (heard self.old) (heard self.new) host.old line.entry) };
}

// What a reply says, after its addressee.
fn answer_in(reply: &str) -> &str
    ensures { result.now ≡ answer_in reply.now }
{
    match reply.split_once(' ') {
        Some((_addressee, answer)) => answer,
        None => "",
    }
}
