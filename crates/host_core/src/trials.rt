//! The trial of a tenant: plays a list of events, and the part of it that is kept for the tenant.

ghost use Rattle.std.specs.Prelude.{◌≡◌, ◌≢◌, ◌≤◌, ◌<◌, ◌↔◌, ◌&&◌, ◌||◌, ◌==◌, ℕ, Bool, List, [], ◌∷◌, false, length, reverse, IfOk, OnOk, Err};
ghost use Rattle.host_core.specs.HostStanding.{ForEachState};
ghost use Rattle.rig_model.specs.HostState.{row_at};
ghost use Rattle.rig_model.specs.Legal.{is_legal};
ghost use Rattle.rig_model.specs.Plays.{IsLeastIllegal, IsSettingOf, IsTrial};
ghost use Rattle.rig_model.specs.Base.{Setting};
ghost use Rattle.rig_model.specs.Sources.{is_source, stays, suppliers_of};
ghost use Rattle.rig_model.specs.declared.events.Event.{Event};
ghost use Rattle.host_core.specs.declared.plays.PlayFault.{PlayFault};
ghost use Rattle.host_core.specs.inner.Playing.{IsStage};
ghost use Rattle.host_core.specs.inner.Trials.{AllLeadBack, AreBoth, AreFlows, AreFlowsBefore, IsNoted, has_flow, is_reached, marked, marks_from};

use crate::events::Event;
use crate::hosts::Host;
use crate::plays::{PlayFault, Stage};
use giotto_tasks::lists::List;
use rig_model::config::{Config, TenantId};
use rig_model::lines::texts::Text;
use std::alloc::{AllocError, Global};

/// What a tenant is answered over a list of events and over its kept list, and which events are kept.
#[derive(Drop)]
pub struct TrialOutcome {
    /// Its printed replies over the whole list, each followed by LF.
    pub whole: Text,
    /// Its printed replies over the kept list, each followed by LF. Equal to `whole`.
    pub kept: Text,
    /// For each event of the list, whether it is kept.
    pub stays: Vec<bool>,
}

// A bind at one place of a list: the supplier's values can reach the consumer there.
#[derive(Clone, Copy)]
struct Flow {
    consumer: TenantId,
    supplier: TenantId,
}

// The stages on which a whole list and its kept list were played, and which events are kept.
#[derive(Drop)]
struct Both {
    whole: Stage,
    kept: Stage,
    stays: Vec<bool>,
}

/// The tenant's answers over a list of events and over its kept list, as in [`trial_outcome`].
///
/// # Errors
/// As [`trial_outcome`].
pub fn trial(
    alloc: Global,
    config: &Config,
    events: &[Event],
    tenant: TenantId,
) -> Result<(Text, Text), PlayFault>
    ensures no_tenant { result ≡ Err PlayFault.NoTenant ↔ (length config.now.tenants ≤ tenant) }
    ensures illegal { (setting : Setting) → IsSettingOf config.now setting → (i : ℕ) → result ≡ Err (PlayFault.Illegal i) → IsLeastIllegal setting events.now i }
    ensures answers { (setting : Setting) → IsSettingOf config.now setting → IfOk result (λ texts. (stays : List Bool) × IsTrial setting events.now tenant texts.0 texts.1 stays) }
    ensures same { IfOk result (λ texts. texts.1 ≡ texts.0) }
{
    let outcome = trial_outcome(alloc, config, events, tenant)?;
    Ok((outcome.whole, outcome.kept))
}

/// Plays a list of events, the oldest first, on a new host from instant 0, and the tenant's kept list on another. The kept list has all
/// instants, and the commands and completions of those tenants on which the tenant's later answers can depend.
///
/// # Errors
/// `NoTenant` if the roster has no tenant at this place, whatever the list. `Illegal` and `Memory` as for `play`.
pub fn trial_outcome(
    alloc: Global,
    config: &Config,
    events: &[Event],
    tenant: TenantId,
) -> Result<TrialOutcome, PlayFault>
    ensures no_tenant { result ≡ Err PlayFault.NoTenant ↔ (length config.now.tenants ≤ tenant) }
    ensures illegal { (setting : Setting) → IsSettingOf config.now setting → (i : ℕ) → result ≡ Err (PlayFault.Illegal i) → IsLeastIllegal setting events.now i }
    ensures answers { (setting : Setting) → IsSettingOf config.now setting → IfOk result (λ trial. IsTrial setting events.now tenant trial.whole trial.kept trial.stays.items) }
    ensures same { IfOk result (λ trial. trial.kept ≡ trial.whole) }
{
    if tenant >= config.tenants().len() {
        return Err(PlayFault::NoTenant);
    }
    let both = play_both(alloc, config, events, tenant)?;
    let Both { whole, kept, stays } = both;
    Ok(TrialOutcome {
        whole: whole.answer(tenant),
        kept: kept.answer(tenant),
        stays,
    })
}

// Plays the whole list and the kept list.
fn play_both(
    alloc: Global,
    config: &Config,
    events: &[Event],
    tenant: TenantId,
) -> Result<Both, PlayFault>
    ensures both { (setting : Setting) → IsSettingOf config.now setting → IfOk result (λ both. AreBoth setting events.now tenant both.whole both.kept both.stays.items) }
    ensures illegal { (setting : Setting) → IsSettingOf config.now setting → (i : ℕ) → result ≡ Err (PlayFault.Illegal i) → IsLeastIllegal setting events.now i }
    ensures tenant { result ≢ Err PlayFault.NoTenant }
{
    let (whole, flows) = play_whole(alloc, config, events)?;
    let stays = marks(alloc, events, flows.as_slice(), tenant)?;
    let kept = play_kept(alloc, config, events, stays.as_slice())?;
    Ok(Both { whole, kept, stays })
}

// Plays these events on a new host, and notes the flows before each.
fn play_whole(
    alloc: Global,
    config: &Config,
    events: &[Event],
) -> Result<(Stage, Vec<List<Flow>>), PlayFault>
    ensures played { (setting : Setting) → IsSettingOf config.now setting → IfOk result (λ r. IsStage setting (reverse events.now) r.0) }
    ensures flows { (setting : Setting) → IsSettingOf config.now setting → IfOk result (λ r. AllLeadBack setting (reverse events.now) (reverse r.1.items)) }
    ensures as_many { IfOk result (λ r. length r.1.items ≡ length events.now) }
    ensures illegal { (setting : Setting) → IsSettingOf config.now setting → (i : ℕ) → result ≡ Err (PlayFault.Illegal i) → IsLeastIllegal setting events.now i }
    ensures tenant { result ≢ Err PlayFault.NoTenant }
{
    let mut stage = Stage::new(alloc, config)?;
    let flows = play_noting(alloc, &mut stage, events)?;
    Ok((stage, flows))
}

// Plays these events on a stage on which none was played, and notes the flows before each.
fn play_noting(
    alloc: Global,
    stage: &mut Stage,
    events: &[Event],
) -> Result<Vec<List<Flow>>, PlayFault>
    ensures played { OnOk result ((setting : Setting) → IsStage setting [] stage.old → IsStage setting (reverse events.now) stage.new) }
    ensures flows { (setting : Setting) → IsStage setting [] stage.old → IfOk result (λ flows. AllLeadBack setting (reverse events.now) (reverse flows.items)) }
    ensures as_many { IfOk result (λ flows. length flows.items ≡ length events.now) }
    ensures illegal { (setting : Setting) → IsStage setting [] stage.old → (i : ℕ) → result ≡ Err (PlayFault.Illegal i) → IsLeastIllegal setting events.now i }
    ensures tenant { result ≢ Err PlayFault.NoTenant }
{
    let mut noted = Vec::new(alloc);
    for i in 0..events.len() {
        let event = &events[i];
        note_flows(alloc, &mut noted, stage, event)?;
        stage.play_next(alloc, i, event)?;
    }
    Ok(noted)
}

// Notes the flows before the event that comes next.
fn note_flows(
    alloc: Global,
    noted: &mut Vec<List<Flow>>,
    stage: &Stage,
    event: &Event,
) -> Result<(), AllocError>
    ensures { OnOk result (IsNoted event.now stage.now noted.old.items noted.new.items) }
{
    noted.push(flows_before(alloc, stage.host(), event)?)?;
    Ok(())
}

// The flows before an event: all binds if it is an instant, else none.
fn flows_before(alloc: Global, host: &Host, event: &Event) -> Result<List<Flow>, AllocError>
    ensures { IfOk result (λ flows. AreFlowsBefore event.now host.now flows) }
{
    Ok(List::from_vec(match event {
        Event::Tick(_) => flows(alloc, host)?,
        Event::Own(_, _) | Event::Done(_) => Vec::new(alloc),
    }))
}

// The flows of a host: all binds of its tenants, whether or not anything is offered.
fn flows(alloc: Global, host: &Host) -> Result<Vec<Flow>, AllocError>
    ensures { IfOk result (λ flows. ForEachState host.now (λ setting state. AreFlows setting (row_at state) flows.items)) }
{
    let mut flows = Vec::new(alloc);
    for consumer in 0..host.config().tenants().len() {
        add_flows(&mut flows, host, consumer)?;
    }
    Ok(flows)
}

// Adds the flows to one tenant.
fn add_flows(flows: &mut Vec<Flow>, host: &Host, consumer: TenantId) -> Result<(), AllocError>
    requires { consumer < length host.now.config.tenants }
    ensures { OnOk result (ForEachState host.now (λ setting state. (t u : ℕ) → has_flow flows.new.items t u
        ≡ (has_flow flows.old.items t u || (t == consumer && is_source (suppliers_of setting (row_at state consumer)) u)))) }
{
    for i in 0..host.bind_count(consumer) {
        if let Some((_, supplier, _)) = host.bind_at(consumer, i) {
            flows.push(Flow { consumer, supplier })?;
        }
    }
    Ok(())
}

// For each event, the oldest first, whether it is kept for the tenant. `noted` has the flows before each event.
fn marks(
    alloc: Global,
    events: &[Event],
    noted: &[List<Flow>],
    tenant: TenantId,
) -> Result<Vec<bool>, AllocError>
    requires { length noted.now ≡ length events.now }
    ensures { (setting : Setting) → AllLeadBack setting (reverse events.now) (reverse noted.now)
        → IfOk result (λ marks. marks.items ≡ reverse (marks_from setting (tenant ∷ []) (reverse events.now))) }
{
    let mut marks = Vec::new(alloc);
    let mut sources = Vec::new(alloc);
    sources.push(tenant)?;
    let mut left = events.len();
    while left > 0 {
        left -= 1;
        let event = &events[left];
        let flows = &noted[left];
        marks.push(stays(sources.as_slice(), event))?;
        add_suppliers(&mut sources, flows.as_slice())?;
    }
    marks.reverse();
    Ok(marks)
}

// Whether an event is kept, if these are the sources after it.
fn stays(sources: &[TenantId], event: &Event) -> bool
    ensures { result ≡ stays sources.now event.now }
{
    match event {
        Event::Own(tenant, _) => sources.contains(tenant),
        Event::Tick(_) => true,
        Event::Done(id) => sources.contains(&id.tenant),
    }
}

// Adds the suppliers of these sources, according to the flows.
fn add_suppliers(sources: &mut Vec<TenantId>, flows: &[Flow]) -> Result<(), AllocError>
    ensures { OnOk result ((u : ℕ) → is_source sources.new.items u ≡ is_reached sources.old.items flows.now u) }
{
    let known = sources.len();
    for flow in flows {
        if sources[..known].contains(&flow.consumer) && !sources.contains(&flow.supplier) {
            sources.push(flow.supplier)?;
        }
    }
    Ok(())
}

// Plays the marked events on a new host.
fn play_kept(
    alloc: Global,
    config: &Config,
    events: &[Event],
    stays: &[bool],
) -> Result<Stage, PlayFault>
    requires { length stays.now ≡ length events.now }
    ensures played { (setting : Setting) → IsSettingOf config.now setting → IfOk result (λ stage. IsStage setting (reverse (marked events.now stays.now)) stage) }
    ensures illegal { (setting : Setting) → IsSettingOf config.now setting → (i : ℕ) → result ≡ Err (PlayFault.Illegal i) → is_legal setting (reverse (marked events.now stays.now)) ≡ false }
    ensures tenant { result ≢ Err PlayFault.NoTenant }
{
    let kept = kept(alloc, events, stays)?;
    let mut stage = Stage::new(alloc, config)?;
    stage.play_all(alloc, kept.as_slice())?;
    Ok(stage)
}

// Copies of the marked events.
fn kept(alloc: Global, events: &[Event], stays: &[bool]) -> Result<Vec<Event>, AllocError>
    requires { length stays.now ≡ length events.now }
    ensures { IfOk result (λ kept. kept.items ≡ marked events.now stays.now) }
{
    let mut kept = Vec::new(alloc);
    for i in 0..events.len() {
        let event = &events[i];
        if stays[i] {
            kept.push(event.copy(alloc)?)?;
        }
    }
    Ok(kept)
}
