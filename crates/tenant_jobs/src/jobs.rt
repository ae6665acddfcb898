//! Jobs: the computations that an instant releases, and their results.

ghost use Rattle.std.specs.Prelude.{◌≡◌, ◌<◌, ◌≤◌, ◌+◌, ◌-◌, [], ◌∷◌, ◌++◌, ◌↔◌, length, IsSome, IsOk, IfOk, option_to_list};
ghost use Rattle.std.specs.Arc.{arc_value};
ghost use Rattle.giotto_tasks.specs.Meaning.{outputs_of, states_of};
ghost use Rattle.giotto_tasks.specs.Sound.{IsSound};
ghost use Rattle.tenant_jobs.specs.cited.Jobs.{IsComputable};

use giotto_tasks::bodies::Body;
use giotto_tasks::evaluation::eval_into;
use giotto_tasks::steps::Steps;
use giotto_tasks::values::Values;
pub use rig_model::jobs::JobId;
use std::alloc::{AllocError, Global};
use std::collections::VecDeque;
use std::marker::{Brand, Model};
use std::sync::Arc;
use std::sync::ledger::{Blank, Ledger};

/// The place of an active task's entry in the table. It is only a hint: the entry found there is compared with the job's name.
/// Contracts see nothing of it.
#[derive(Drop)]
pub struct Key(usize);

impl Model for Key {
    ghost use Rattle.std.specs.Prelude.{⊤};

    ghost Value = { ⊤ };

    ghost view = { λ k. tt };
}

impl Key {
    /// A key that belongs to no entry.
    pub fn none() -> Key {
        Key(0)
    }

    pub(crate) fn new(place: usize) -> Key {
        Key(place)
    }

    pub(crate) fn place(&self) -> usize {
        self.0
    }

    /// The same key.
    pub fn copy(&self) -> Key {
        Key(self.0)
    }
}

/// A job: one computation of a task, with the task's inputs and states at its release. It can run anywhere, and at any time until
/// its deadline.
#[derive(Drop)]
pub struct Job {
    id: JobId,
    body: Arc<Body, Global>,
    inputs: Values,
    states: Values,
    key: Key,
}

impl Model for Job {
    ghost use Rattle.std.specs.Arc.{arc_value};
    ghost use Rattle.tenant_jobs.specs.Jobs.{JobValue};
    ghost use Rattle.tenant_jobs.specs.cited.Jobs.{IsComputable};
    ghost use Rattle.std.specs.Coded.{codes};
    ghost use Rattle.giotto_tasks.specs.cited.Codes.{body_code};

    ghost Value = { JobValue };

    ghost coded = { Prim.hlevel (codes, body_code) };

    ghost view = { λ j. record { id = j.id; body = arc_value j.body; inputs = j.inputs; states = j.states } };

    ghost invariant = { λ j. IsComputable (record { id = j.id; body = arc_value j.body; inputs = j.inputs; states = j.states }) };
}

/// The result of a job: the new values of its task's outputs and states.
#[derive(Drop)]
pub struct JobResult {
    pub outputs: Values,
    pub states: Values,
}

impl JobResult {
    /// An equal result. Takes no memory.
    pub fn copy(&self) -> JobResult
        ensures { result ≡ self.now }
    {
        JobResult {
            outputs: self.outputs.copy(),
            states: self.states.copy(),
        }
    }
}

/// A job with its result, which is the value of the job's computation. Contracts see it as the job.
#[derive(Drop)]
pub struct Done {
    job: Job,
    result: JobResult,
}

impl Model for Done {
    ghost use Rattle.std.specs.Prelude.{◌≡◌};
    ghost use Rattle.tenant_jobs.specs.cited.Finished.{result_of};
    ghost use Rattle.tenant_jobs.specs.Jobs.{JobValue};
    ghost use Rattle.std.specs.Coded.{codes};
    ghost use Rattle.giotto_tasks.specs.cited.Codes.{body_code};

    ghost Value = { JobValue };

    ghost coded = { Prim.hlevel (codes, body_code) };

    ghost view = { λ d. d.job };

    ghost invariant = { λ d. d.result ≡ result_of d.job };
}

impl Job {
    /// Makes the job of this name, with the key of its entry. It has as many inputs and states as its body, and the body is
    /// sound: at most 16 each of inputs, outputs and states, all with different names, and a block that reads only these and
    /// assigns only outputs and states.
    pub fn new(id: JobId, body: Arc<Body, Global>, inputs: Values, states: Values, key: Key) -> Job
        requires { IsComputable (record { id = id; body = arc_value body; inputs = inputs; states = states }) }
        ensures { result ≡ record { id = id; body = arc_value body; inputs = inputs; states = states } }
    {
        Job {
            id,
            body,
            inputs,
            states,
            key,
        }
    }

    /// The key of its entry.
    pub fn key(&self) -> &Key {
        &self.key
    }

    /// The name of the job.
    pub fn id(&self) -> &JobId
        ensures { result.now ≡ self.now.id }
    {
        &self.id
    }

    /// What the job computes.
    pub fn body(&self) -> &Body
        ensures { result.now ≡ self.now.body }
    {
        &self.body
    }

    /// The values that the task's inputs had at the release.
    pub fn inputs(&self) -> &Values
        ensures { result.now ≡ self.now.inputs }
    {
        &self.inputs
    }

    /// The values that the task's states had at the release.
    pub fn states(&self) -> &Values
        ensures { result.now ≡ self.now.states }
    {
        &self.states
    }
}

impl Done {
    /// The job whose result it is.
    pub fn job(&self) -> &Job
        ensures { result.now ≡ self.now }
    {
        &self.job
    }

    /// The name of the job.
    pub fn id(&self) -> &JobId
        ensures { result.now ≡ self.now.id }
    {
        &self.job.id
    }

    /// The new values of the task's outputs.
    pub fn outputs(&self) -> &Values
        ensures { result.now ≡ outputs_of self.now.body self.now.inputs self.now.states }
    {
        &self.result.outputs
    }

    /// The new values of the task's states.
    pub fn states(&self) -> &Values
        ensures { result.now ≡ states_of self.now.body self.now.inputs self.now.states }
    {
        &self.result.states
    }
}

/// Runs a job. Takes no memory, and doesn't block.
pub fn run_job(job: Job) -> Done
    ensures { result ≡ job }
{
    let mut outputs = Values::new();
    let mut states = Values::new();
    put_results(
        &job.body,
        &job.inputs,
        &job.states,
        &mut outputs,
        &mut states,
    );
    Done {
        job,
        result: JobResult { outputs, states },
    }
}

// Replaces `outputs` and `new_states` with the new outputs and states of a body. The steps are counted, but the count is never
// read.
pub fn put_results(
    body: &Body,
    inputs: &Values,
    states: &Values,
    outputs: &mut Values,
    new_states: &mut Values,
)
    requires inputs { length inputs.now ≡ length body.now.inputs }
    requires states { length states.now ≡ length body.now.states }
    requires sound { IsSound body.now }
    ensures outputs { outputs.new ≡ outputs_of body.now inputs.now states.now }
    ensures states { new_states.new ≡ states_of body.now inputs.now states.now }
{
    uncounted::<Brand>(body, inputs, states, outputs, new_states, Blank::new(1));
}

fn uncounted<L: Ledger>(
    body: &Body,
    inputs: &Values,
    states: &Values,
    outputs: &mut Values,
    new_states: &mut Values,
    blank: Blank,
)
    requires name { blank.name ≡ L.name }
    requires parts { blank.parts ≡ L.parts }
    requires some { blank.parts ≡ 1 }
    requires inputs { length inputs.now ≡ length body.now.inputs }
    requires states { length states.now ≡ length body.now.states }
    requires sound { IsSound body.now }
    ensures outputs { outputs.new ≡ outputs_of body.now inputs.now states.now }
    ensures states { new_states.new ≡ states_of body.now inputs.now states.now }
{
    let mut steps = Steps::<L>::new(blank);
    eval_into(body, inputs, states, outputs, new_states, &mut steps);
}

/// The jobs that an instant released, in the order of their release.
#[derive(Drop)]
pub struct Jobs {
    jobs: VecDeque<Job>,
}

impl Model for Jobs {
    ghost use Rattle.std.specs.Prelude.{◌-◌};
    ghost use Rattle.std.specs.VecDeque.{deque_len, deque_capacity};
    ghost use Rattle.tenant_jobs.specs.JobLists.{JobList};
    ghost use Rattle.std.specs.Coded.{codes};
    ghost use Rattle.giotto_tasks.specs.cited.Codes.{body_code};

    ghost Value = { JobList };

    ghost coded = { Prim.hlevel (codes, body_code) };

    ghost view = { λ j. record { jobs = j.jobs.items; room = deque_capacity j.jobs - deque_len j.jobs } };
}

impl Jobs {
    /// Makes an empty list with capacity for this many jobs.
    ///
    /// # Errors
    /// Out of memory. Never if `room` is 0.
    pub fn with_room(alloc: Global, room: usize) -> Result<Jobs, AllocError>
        ensures jobs { IfOk result (λ jobs. jobs.jobs ≡ []) }
        ensures room { IfOk result (λ jobs. room ≤ jobs.room) }
        ensures never_refused { room ≡ 0 → IsOk result }
    {
        let jobs = VecDeque::with_capacity(alloc, room)?;
        Ok(Jobs { jobs })
    }

    /// How many jobs there are.
    pub fn len(&self) -> usize
        ensures { result ≡ length self.now.jobs }
    {
        self.jobs.len()
    }

    /// Adds a job at the end. Takes no memory.
    pub fn put(&mut self, job: Job)
        requires { 0 < self.old.room }
        ensures jobs { self.new.jobs ≡ self.old.jobs ++ job ∷ [] }
        ensures room { self.new.room ≡ self.old.room - 1 }
    {
        self.jobs.push_back_reserved(job);
    }

    /// Takes the first job, if there is one.
    pub fn take(&mut self) -> Option<Job>
        ensures jobs { self.old.jobs ≡ option_to_list result ++ self.new.jobs }
        ensures variant { IsSome result ↔ (0 < length self.old.jobs) }
        ensures room { self.new.room ≡ self.old.room + length (option_to_list result) }
    {
        self.jobs.pop_front()
    }
}
