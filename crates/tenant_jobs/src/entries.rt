//! The entries of the table of active tasks.

ghost use Rattle.std.specs.Prelude.{◌≡◌, None, Some, is_some, length, option_copied};
ghost use Rattle.giotto_tasks.specs.Sound.{IsSound};
ghost use Rattle.rig_model.specs.Jobs.{same_job};
ghost use Rattle.tenant_jobs.specs.cited.Finished.{computed};

use crate::jobs::{JobId, JobResult, put_results};
use giotto_tasks::bodies::Body;
use giotto_tasks::names::Name;
use giotto_tasks::values::Values;
use std::alloc::{AllocError, Global};
use std::marker::Model;

// The contents of an entry. `result` has no meaning unless `has_result` is set.
#[derive(Drop)]
struct Contents {
    id: JobId,
    has_result: bool,
    result: JobResult,
}

/// An entry: the name of an active task's job, and the job's result, if it came. It has a separate allocation, so the table moves
/// only its address. It is reused for other tasks.
#[derive(Drop)]
pub(crate) struct Entry {
    contents: Box<Contents>,
}

impl Clone for Contents {
    ghost is_clone = { λ contents copy. copy ≡ contents };

    fn clone(&self) -> Result<Contents, AllocError> {
        Ok(Contents {
            id: self.id.copy(),
            has_result: self.has_result,
            result: self.result.copy(),
        })
    }
}

impl Model for Entry {
    ghost use Rattle.std.specs.Prelude.{Some, None, if◌then◌else◌};
    ghost use Rattle.std.specs.Box.{box_value};
    ghost use Rattle.tenant_jobs.specs.Finished.{TableEntry};

    ghost Value = { TableEntry };

    ghost view = { λ e. record { id = (box_value e.contents).id; result = if (box_value e.contents).has_result then Some (box_value e.contents).result else None } };
}

impl Clone for Entry {
    ghost is_clone = { λ entry copy. copy ≡ entry };

    fn clone(&self) -> Result<Entry, AllocError> {
        Ok(Entry {
            contents: self.contents.clone()?,
        })
    }
}

impl Entry {
    /// Makes a spare entry, which belongs to no task yet.
    ///
    /// # Errors
    /// Out of memory.
    pub(crate) fn unused(alloc: Global) -> Result<Entry, AllocError> {
        let id = JobId {
            tenant: 0,
            tick: 0,
            task: Name::default(),
        };
        let result = JobResult {
            outputs: Values::new(),
            states: Values::new(),
        };
        let contents = Contents {
            id,
            has_result: false,
            result,
        };
        Ok(Entry {
            contents: Box::new(alloc, contents)?,
        })
    }

    /// The name of the task's job.
    pub(crate) fn id(&self) -> &JobId
        ensures { result.now ≡ self.now.id }
    {
        &self.contents.id
    }

    /// Whether the entry has this name.
    #[inline(always)]
    pub(crate) fn is_named(&self, id: &JobId) -> bool
        ensures { result ≡ same_job self.now.id id.now }
    {
        let own = &self.contents.id;
        own.tenant == id.tenant && own.tick == id.tick && own.task == id.task
    }

    /// Whether the result came.
    pub(crate) fn has_result(&self) -> bool
        ensures { result ≡ is_some self.now.result }
    {
        self.contents.has_result
    }

    /// The result, if it came.
    pub(crate) fn result(&self) -> Option<&JobResult>
        ensures { option_copied result ≡ self.now.result }
    {
        if self.contents.has_result {
            Some(&self.contents.result)
        } else {
            None
        }
    }

    /// Gives the entry this name, and removes its result.
    #[inline(always)]
    pub(crate) fn set_name(&mut self, id: JobId)
        ensures { self.new ≡ record { id = id; result = None } }
    {
        self.contents.id = id;
        self.contents.has_result = false;
    }

    /// Sets the result of the entry.
    pub(crate) fn set_result(&mut self, outputs: &Values, states: &Values)
        ensures { self.new ≡ record self.old { result = Some (record { outputs = outputs.now; states = states.now }) } }
    {
        let result = &mut self.contents.result;
        result.outputs.set(outputs.as_slice());
        result.states.set(states.as_slice());
        self.contents.has_result = true;
    }

    /// Computes the body on these inputs and states, and sets the result of the entry.
    pub(crate) fn compute(&mut self, body: &Body, inputs: &Values, states: &Values)
        requires inputs { length inputs.now ≡ length body.now.inputs }
        requires states { length states.now ≡ length body.now.states }
        requires sound { IsSound body.now }
        ensures { self.new ≡ record self.old { result = Some (computed body.now inputs.now states.now) } }
    {
        let contents = &mut *self.contents;
        let result = &mut contents.result;
        put_results(
            body,
            inputs,
            states,
            &mut result.outputs,
            &mut result.states,
        );
        contents.has_result = true;
    }
}
