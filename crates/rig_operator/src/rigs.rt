//! The questions of an operator to a rig.

ghost use Rattle.std.specs.Prelude.{[], ◌∷◌, List, Option, IfOk, OnErr, IfErr};
ghost use Rattle.rig_operator.specs.Asked.{Adds, Asked, archived, completed, driven, given, refused, sent, settled, unarchived, undriven};

use host_core::hosts::TickFault;
use std::alloc::AllocError;
use std::sync::Wait;
use tenant_jobs::jobs::{Done, Jobs};
use thiserror::Error;

/// Why an archive fails.
#[derive(Clone, Copy, Debug, PartialEq, Eq, Error)]
pub enum ArchiveFault {
    /// Out of memory.
    #[error("no memory for an archive")]
    Memory,
    /// Some of the history can't be written. It is kept, to be written later.
    #[error("writing the history failed")]
    History,
}

impl From<AllocError> for ArchiveFault {
    ghost use Rattle.std.specs.Prelude.{◌≡◌};
    ghost use Rattle.rig_operator.specs.declared.rigs.ArchiveFault.TheVariants.{Memory};

    ghost from_gives = { λ _ fault. fault ≡ Memory };

    fn from(_error: AllocError) -> ArchiveFault {
        ArchiveFault::Memory
    }
}

/// A rig as an operator uses it.
pub trait Rig {
    // the questions so far with their answers, the oldest first, if they are known
    ghost asked: { Self → Option (List Asked) };

    /// Gives an instant of all tenants with this frame, and returns the jobs that it releases.
    ///
    /// # Errors
    /// Those of a host's `tick`.
    fn tick<R: Wait>(&mut self, rt: &R, frame: &[i64]) -> Result<Jobs, TickFault>
        ensures given { IfOk result (λ jobs. Adds (asked self.old) (asked self.new) (given frame.now jobs.jobs ∷ [])) }
        ensures refused { IfErr result (λ fault. Adds (asked self.old) (asked self.new) (refused frame.now fault ∷ [])) };

    /// Sends jobs to be run, and returns those that couldn't be sent.
    fn send<R: Wait>(&mut self, rt: &R, jobs: Jobs) -> Jobs
        ensures { Adds (asked self.old) (asked self.new) (sent jobs.jobs result.jobs ∷ []) };

    /// Takes a completion.
    fn done<R: Wait>(&mut self, rt: &R, done: Done)
        ensures { Adds (asked self.old) (asked self.new) (completed done ∷ []) };

    /// The value that each line of the rig is driven with.
    ///
    /// # Errors
    /// Out of memory.
    fn lines<R: Wait>(&mut self, rt: &R) -> Result<Vec<i64>, AllocError>
        ensures driven { IfOk result (λ values. Adds (asked self.old) (asked self.new) (driven values.items ∷ [])) }
        ensures undriven { OnErr result (Adds (asked self.old) (asked self.new) (undriven ∷ [])) };

    /// Hands out the log since the last archive, drops it, and returns how many entries it had. If the rig has a history, all that was
    /// handed out is in it then.
    ///
    /// # Errors
    /// `Memory`: the log is as before then. `History` if some of what was handed out, now or before, can't be written to the history.
    fn archive<R: Wait>(&mut self, rt: &R) -> Result<usize, ArchiveFault>
        ensures archived { IfOk result (λ entries. Adds (asked self.old) (asked self.new) (archived entries ∷ [])) }
        ensures unarchived { IfErr result (λ fault. Adds (asked self.old) (asked self.new) (unarchived fault ∷ [])) };

    /// Waits until no job is outstanding.
    fn settle<R: Wait>(&mut self, rt: &R)
        ensures { Adds (asked self.old) (asked self.new) (settled ∷ []) };
}
