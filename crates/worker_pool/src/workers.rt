//! Workers: what is done for each job.

ghost use Rattle.std.specs.Prelude.{◌≡◌, [], ◌∷◌, ℕ, List, Option, None, length};
ghost use Rattle.host_core.specs.declared.hosts.Counted.{Counted};
ghost use Rattle.locked_book.specs.Books.{new_setting};
ghost use Rattle.rig_model.specs.Logs.{IsLegalLog};
ghost use Rattle.rig_model.specs.declared.jobs.JobId.{JobId};
ghost use Rattle.rig_model.specs.declared.logged.Logged.{Logged};
ghost use Rattle.host_core.specs.Adding.{Adds};
ghost use Rattle.worker_pool.specs.Works.{Work, computed, entered, handed_in, work_for};

use crate::gates::Gate;
use host_core::hosts::Counted;
use locked_book::desks::Desk;
use locked_book::naming::Naming;
use std::sync::Wait;
use std::time::Clock;
use tenant_jobs::jobs::{Done, Job, JobId, run_job};

/// Can do what a job needs.
pub trait Worker {
    // what it did, the oldest first, if that is known
    ghost did: { Self → Option (List Work) } = { λ _. None };

    // what is known of the answer to the completion of the job of this name
    ghost answers: { JobId → Counted → ℕ → Type 0 };

    /// Returns when the job of this name may be computed.
    fn enter<R: Wait + Clock>(&mut self, rt: &R, id: &JobId)
        ensures { Adds (did self.old) (did self.new) (entered id.now ∷ []) };

    /// Computes a job.
    fn compute(&mut self, job: Job) -> Done
        ensures done { result ≡ job }
        ensures did { Adds (did self.old) (did self.new) (computed job ∷ []) };

    /// Takes a completion. Returns whether it counts, and its place in the log, which is 0 if it doesn't.
    fn hand_in<R: Wait>(&mut self, rt: &R, done: Done) -> (Counted, u128)
        ensures did { Adds (did self.old) (did self.new) (handed_in done result.0 result.1 ∷ []) }
        ensures answer { answers done.id result.0 result.1 };
}

/// Has a worker do everything for one job: it enters, computes the job, and then hands in its completion. Returns the answer to that.
pub fn work_off<R: Wait + Clock, W: Worker>(rt: &R, worker: &mut W, job: Job) -> (Counted, u128)
    ensures did { Adds (W.did worker.old) (W.did worker.new) (work_for job result.0 result.1) }
    ensures answer { W.answers job.id result.0 result.1 }
{
    worker.enter(rt, job.id());
    let done = worker.compute(job);
    worker.hand_in(rt, done)
}

/// A worker at a desk, with a gate. It computes jobs outside the desk's lock.
#[derive(Drop)]
pub(crate) struct DeskWorker<'a, N: Naming, G> {
    pub(crate) desk: &'a Desk<N>,
    pub(crate) gate: &'a G,
}

impl<'a, N: Naming, G: Gate> Worker for DeskWorker<'a, N, G> {
    // a completion that counts is the last entry of a legal log, at the place that is returned
    ghost answers = { λ id counted place.
        (counted ≡ Counted.Counted → (log : List Logged) × IsLegalLog (new_setting N.config N.first_tick) (Logged.Done id ∷ log) × (place ≡ length log))
        × (counted ≡ Counted.Late → place ≡ 0) };

    fn enter<R: Wait + Clock>(&mut self, rt: &R, id: &JobId) {
        self.gate.enter(rt, id);
    }

    fn compute(&mut self, job: Job) -> Done {
        run_job(job)
    }

    fn hand_in<R: Wait>(&mut self, rt: &R, done: Done) -> (Counted, u128) {
        self.desk.done(rt, done)
    }
}
