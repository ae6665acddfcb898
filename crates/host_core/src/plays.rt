//! Plays a list of events on a new host.

ghost use Rattle.std.specs.Prelude.{◌≡◌, ◌≢◌, ◌<◌, ◌++◌, ◌∷◌, ◌||◌, ℕ, false, List, [], length, reverse, slice_index_or, IfOk, OnOk, IsOk, IsTrue, Err, None};
ghost use Rattle.std.specs.List.{All, list_any};
ghost use Rattle.rig_model.specs.Legal.{may_follow};
ghost use Rattle.host_core.specs.HostStanding.{awaited_in};
ghost use Rattle.host_core.specs.inner.Playing.{IsStage, IsPlayedOn, IsLate, HasPlace};
ghost use Rattle.rig_model.specs.Plays.{IsSettingOf, AreAnswers, IsLeastIllegal};
ghost use Rattle.rig_model.specs.Base.{Setting};
ghost use Rattle.instant_engine.specs.job_table.Jobs.{JobValue};
ghost use Rattle.rig_model.specs.Jobs.{same_job};
ghost use Rattle.rig_model.specs.declared.jobs.JobId.{JobId};
ghost use Rattle.rig_model.specs.lines.Replies.{text_of_reply};
ghost use Rattle.rig_model.specs.declared.events.Event.{Event};
ghost use Rattle.host_core.specs.declared.plays.PlayFault.{PlayFault};
ghost use Rattle.rig_model.specs.declared.lines.replies.Refusal.{Refusal};
ghost use Rattle.rig_model.specs.declared.lines.replies.Reply.{Reply};

use crate::events::Event;
use crate::hosts::{Host, complete};
use rig_model::config::{Config, TenantId};
use rig_model::lines::commands::Command;
use rig_model::lines::replies::{Reply, print_reply};
use rig_model::lines::texts::Text;
use std::alloc::{AllocError, Global};
use std::collections::BTreeSet;
use tenant_jobs::jobs::{JobId, Jobs};
use thiserror::Error;

/// Why a list of events isn't played to its end.
#[derive(Clone, Copy, Debug, PartialEq, Eq, Error)]
pub enum PlayFault {
    /// No tenant has this place.
    #[error("no tenant has this place")]
    NoTenant,
    /// The event at this place, counted from 0, can't come there. It is the first such event.
    #[error("the event at place {0}, counted from 0, can't come there")]
    Illegal(usize),
    /// Out of memory.
    #[error("no memory for the answers")]
    Memory,
}

impl From<AllocError> for PlayFault {
    ghost use Rattle.std.specs.Prelude.{◌≡◌};
    ghost use Rattle.host_core.specs.declared.plays.PlayFault.TheVariants.{Memory};

    ghost from_gives = { λ _ fault. fault ≡ Memory };

    fn from(_error: AllocError) -> PlayFault {
        PlayFault::Memory
    }
}

// A host, what each tenant has been answered, and the names of all jobs that were released.
#[derive(Drop)]
pub(crate) struct Stage {
    host: Host,
    texts: Vec<Text>,
    released: BTreeSet<JobId>,
}

/// Plays a list of events, the oldest first, on a new host from instant 0. Returns a text for each tenant, in the order of their
/// places: its printed replies, each followed by LF.
///
/// # Errors
/// `Illegal` with the place of the first event that can't come: its tenant isn't in the roster, its frame doesn't have one value for
/// each line, its instant's number would be `u64::MAX`, or its job was never released. `Memory` if an allocation fails.
pub fn play(alloc: Global, config: &Config, events: &[Event]) -> Result<Vec<Text>, PlayFault>
    ensures answers { (setting : Setting) → IsSettingOf config.now setting → IfOk result (λ texts. AreAnswers setting events.now texts.items) }
    ensures illegal { (setting : Setting) → IsSettingOf config.now setting → (i : ℕ) → result ≡ Err (PlayFault.Illegal i) → IsLeastIllegal setting events.now i }
    ensures tenant { result ≢ Err PlayFault.NoTenant }
{
    let mut stage = Stage::new(alloc, config)?;
    match stage.play_all(alloc, events) {
        Ok(()) => Ok(stage.texts),
        Err(fault) => {
            drop(stage);
            Err(fault)
        }
    }
}

impl Stage {
    // The stage before any event.
    pub(crate) fn new(alloc: Global, config: &Config) -> Result<Stage, AllocError>
        ensures { IfOk result (λ stage. (setting : Setting) → IsSettingOf config.now setting → IsStage setting [] stage) }
    {
        let texts = blank_texts(alloc, config.tenants().len())?;
        Ok(Stage {
            host: Host::new(alloc, config, 0)?,
            texts,
            released: BTreeSet::new(alloc),
        })
    }

    // Plays these events, the oldest first, on a stage on which none was played.
    pub(crate) fn play_all(&mut self, alloc: Global, events: &[Event]) -> Result<(), PlayFault>
        ensures played { OnOk result ((setting : Setting) → IsStage setting [] self.old → IsStage setting (reverse events.now) self.new) }
        ensures illegal { (setting : Setting) → IsStage setting [] self.old → (i : ℕ) → result ≡ Err (PlayFault.Illegal i) → IsLeastIllegal setting events.now i }
        ensures tenant { result ≢ Err PlayFault.NoTenant }
    {
        for i in 0..events.len() {
            let event = &events[i];
            self.play_next(alloc, i, event)?;
        }
        Ok(())
    }

    // Plays the next event, which is at this place of the list. `Illegal` if it can't come.
    pub(crate) fn play_next(
        &mut self,
        alloc: Global,
        place: usize,
        event: &Event,
    ) -> Result<(), PlayFault>
        ensures played { OnOk result ((setting : Setting) (past : List Event) → IsStage setting past self.old → IsStage setting (event.now ∷ past) self.new) }
        ensures illegal { (setting : Setting) (past : List Event) → IsStage setting past self.old → (i : ℕ) → result ≡ Err (PlayFault.Illegal i)
            → (i ≡ place) × (may_follow setting past event.now ≡ false) }
        ensures tenant { result ≢ Err PlayFault.NoTenant }
    {
        if !self.may_follow(event) {
            return Err(PlayFault::Illegal(place));
        }
        self.play(alloc, event)?;
        Ok(())
    }

    // The host.
    pub(crate) fn host(&self) -> &Host
        ensures { result.now ≡ self.now.host }
    {
        &self.host
    }

    // What a tenant has been answered.
    pub(crate) fn answer(self, tenant: TenantId) -> Text
        requires { tenant < length self.texts.items }
        ensures { result ≡ slice_index_or self.texts.items tenant [] }
    {
        let mut texts = self.texts;
        texts.swap_remove(tenant)
    }

    // Whether the event may come next.
    fn may_follow(&self, event: &Event) -> bool
        ensures legal { (setting : Setting) (past : List Event) → IsStage setting past self.now → result ≡ may_follow setting past event.now }
        ensures place { IsTrue result → HasPlace event.now self.now.host.config self.now.texts.items }
    {
        match event {
            Event::Own(tenant, _) => {
                *tenant < self.host.config().tenants().len() && *tenant < self.texts.len()
            }
            Event::Tick(frame) => {
                frame.as_slice().len() == self.host.config().lines() && self.host.clock() < u64::MAX
            }
            Event::Done(id) => self.released.contains(id),
        }
    }

    // Plays one more event. Never fails if it is a late completion.
    fn play(&mut self, alloc: Global, event: &Event) -> Result<(), AllocError>
        requires { HasPlace event.now self.old.host.config self.old.texts.items }
        ensures played { OnOk result (IsPlayedOn event.now self.old self.new) }
        ensures late { IsLate event.now self.old.host → IsOk result }
    {
        match event {
            Event::Own(tenant, command) => self.own(alloc, *tenant, command),
            Event::Tick(frame) => self.tick(frame.as_slice()),
            Event::Done(id) => self.done(id),
        }
    }

    // Carries out a command, and adds its reply at the end of the tenant's text.
    fn own(&mut self, alloc: Global, tenant: TenantId, command: &Command) -> Result<(), AllocError>
        requires host { tenant < length self.old.host.config.tenants }
        requires text { tenant < length self.old.texts.items }
        ensures { OnOk result (IsPlayedOn (Event.Own tenant command.now) self.old self.new) }
    {
        let reply = self.host.command(tenant, command.copy()?);
        add_answer(alloc, &mut self.texts[tenant], &reply)
    }

    // Runs an instant, and adds the names of its jobs to those of the earlier ones.
    fn tick(&mut self, frame: &[i64]) -> Result<(), AllocError>
        ensures { OnOk result (IsPlayedOn (Event.Tick frame.now) self.old self.new) }
    {
        let Ok(jobs) = self.host.tick(frame) else {
            return Err(AllocError);
        };
        add_names(&mut self.released, jobs)?;
        Ok(())
    }

    // Computes the named job and takes its completion, if that is awaited.
    fn done(&mut self, id: &JobId) -> Result<(), AllocError>
        ensures played { OnOk result (IsPlayedOn (Event.Done id.now) self.old self.new) }
        ensures never_refused { awaited_in self.old.host id.now ≡ None → IsOk result }
    {
        complete(&mut self.host, id)?;
        Ok(())
    }
}

// An empty text for each of this many tenants.
fn blank_texts(alloc: Global, number: usize) -> Result<Vec<Text>, AllocError>
    ensures many { IfOk result (λ texts. length texts.items ≡ number) }
    ensures blank { IfOk result (λ texts. All (λ (text : List ℕ). text ≡ []) texts.items) }
{
    let mut texts = Vec::new(alloc);
    for _place in 0..number {
        texts.push(Text::new(alloc))?;
    }
    Ok(texts)
}

// Adds the printed reply, and LF. Fails if the reply itself is `err memory`.
fn add_answer(alloc: Global, text: &mut Text, reply: &Reply) -> Result<(), AllocError>
    ensures { OnOk result ((reply.now ≢ Reply.Refused Refusal.Memory) × (text.new ≡ text.old ++ (text_of_reply reply.now ++ 10 ∷ []))) }
{
    if reply.is_memory() {
        return Err(AllocError);
    }
    add_line(alloc, text, reply)
}

// Adds the printed reply, and LF.
fn add_line(alloc: Global, text: &mut Text, reply: &Reply) -> Result<(), AllocError>
    ensures { OnOk result (text.new ≡ text.old ++ (text_of_reply reply.now ++ 10 ∷ [])) }
{
    let printed = print_reply(alloc, reply)?;
    text.push_str(printed.as_str())?;
    text.push_str("\n")
}

// Adds the names of these jobs.
fn add_names(names: &mut BTreeSet<JobId>, jobs: Jobs) -> Result<(), AllocError>
    ensures { OnOk result ((j : JobId) → list_any (λ r. same_job r j) names.new.keys
        ≡ (list_any (λ r. same_job r j) names.old.keys || list_any (λ (k : JobValue). same_job k.id j) jobs.jobs)) }
{
    let mut jobs = jobs;
    while let Some(job) = jobs.take() {
        let Ok(_) = names.insert(job.id().copy()) else {
            return Err(AllocError);
        };
    }
    Ok(())
}
