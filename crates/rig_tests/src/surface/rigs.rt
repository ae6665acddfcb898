//! The calls of rig_config and tenant_grants.

ghost use Rattle.std.specs.Prelude.{◌≡◌, ◌<◌, length};

use crate::fixtures::{ALPHA, BETA, name};
use crate::memory::{with_refusals, without_memory};
use arrayvec::ArrayVec;
use giotto_tasks::names::Name;
use giotto_tasks::same::all_same;
use rig_model::config::faults::{ConfigFault, Field, FieldPlace};
use rig_model::config::intervals::Bounds;
use rig_model::config::{Config, TenantConfig, built_in, read_config};
use rig_model::grants::faults::GrantFault;
use rig_model::grants::grants::Grants;
use rig_model::grants::rows::Row;
use std::alloc::Global;
use std::process::Abort;

// The budgets of a tenant, as a configuration has them.
const BUDGETS: &str =
    "bytes = 4096\nports = 64\ntasks = 16\nmodes = 16\nsteps = 10000\ntrace = 8\noffers = 4\nbinds = 4\n";

// rig_config

// The configuration of alpha, which may drive the one line, and of another tenant.
fn rig_text(rt: &impl Abort, alloc: Global, version: u64, other: &str) -> String {
    let budgets = BUDGETS;
    format!(in alloc;
        "version = {version}\nlines = 1\n[[tenant]]\nname = \"alpha\"\nkey = \"ka\"\nreads = [0]\nwrites = [0]\n{budgets}[[tenant]]\nname = \"{other}\"\nkey = \"kb\"\nreads = [0]\nwrites = []\n{budgets}"
    ).expect(rt, "memory")
}

// What reading a configuration gives.
fn config_of(alloc: Global, text: &str) -> Result<Config, ConfigFault> {
    with_refusals!(alloc, read_config(alloc, text),
        Err(ConfigFault::Memory) => read_config(alloc, text)
    )
}

fn config_fault(alloc: Global, text: &str) -> Option<ConfigFault> {
    config_of(alloc, text).err()
}

// The fault for which this configuration is refused.
fn rig_fault(rt: &impl Abort, alloc: Global, version: u64, other: &str) -> Option<ConfigFault> {
    config_fault(alloc, rig_text(rt, alloc, version, other).as_str())
}

fn of_rig(field: Field) -> FieldPlace {
    FieldPlace {
        tenant: None,
        field,
    }
}

// Whether there are one line and these two tenants.
fn are_alpha_and_beta(config: &Config) -> bool {
    match config.tenants() {
        [alpha, beta] => config.lines() == 1 && is_alpha(alpha) && beta.name.as_str() == "beta",
        _ => false,
    }
}

fn is_alpha(tenant: &TenantConfig) -> bool {
    tenant.name.as_str() == "alpha"
        && matches!(tenant.budgets.writes.as_slice(), [0])
        && tenant.budgets.steps == 10000
}

#[test]
fn rigs_are_read(rt: HostRuntime) {
    let alloc = rt.alloc();
    let text = rig_text(&rt, alloc, 1, "beta");
    let config = config_of(alloc, text.as_str()).expect(&rt, "a rig");
    assert!(rt; are_alpha_and_beta(&config));
    drop(config);
    assert!(rt; rig_fault(&rt, alloc, 1, "alpha") == Some(ConfigFault::Twice(Field::Name)));
    let low = FieldPlace {
        tenant: Some(0),
        field: Field::Low,
    };
    assert!(rt; rig_fault(&rt, alloc, 2, "beta") == Some(ConfigFault::Missing(low)));
}

#[test]
fn texts_of_no_rig_are_refused(rt: HostRuntime) {
    let alloc = rt.alloc();
    let missing = ConfigFault::Missing(of_rig(Field::Lines));
    let range = ConfigFault::Range(of_rig(Field::Lines));
    assert!(rt; config_fault(alloc, "=") == Some(ConfigFault::NotToml));
    assert!(rt; config_fault(alloc, "version = 1") == Some(missing));
    assert!(rt; config_fault(alloc, "version = 1\nlines = 0") == Some(range));
    assert!(rt; without_memory!(alloc, Bounds::new(0, 5)).is_some());
    assert!(rt; without_memory!(alloc, Bounds::new(9, 7)).is_none());
}

#[test]
fn built_in_rig_greets_its_tenants(rt: HostRuntime) {
    let alloc = rt.alloc();
    let made = with_refusals!(alloc, built_in(alloc), Err(_) => built_in(alloc));
    let config = made.expect(&rt, "memory");
    assert!(rt; without_memory!(alloc, config.greet("alpha", "ka")) == Some(ALPHA));
    assert!(rt; without_memory!(alloc, config.greet("alpha", "kb")).is_none());
    assert!(rt; without_memory!(alloc, config.greet("gamma", "ka")).is_none());
    let copied = with_refusals!(alloc, config.copy(alloc), Err(_) => config.copy(alloc));
    drop(config);
    let copy = copied.expect(&rt, "memory");
    assert!(rt; copy.greet("beta", "kb") == Some(BETA));
    drop(copy);
}

// tenant_grants

// Rows of the first of these tenants: none yet, and at most 4 offers and 4 binds.
pub(crate) fn no_rows(rt: &impl Abort, alloc: Global, roster: ArrayVec<Name, 16>) -> Grants
    requires { 0 < length roster.items }
    ensures place { result.owner.place ≡ 0 }
    ensures roster { result.owner.roster ≡ roster.items }
{
    Grants::new(alloc, ALPHA, roster, 4, 4).expect(rt, "memory")
}

fn alpha_and_beta(rt: &impl Abort) -> ArrayVec<Name, 16>
    ensures { 0 < length result.items }
{
    let mut roster = ArrayVec::new();
    roster.push(name(rt, "alpha"));
    roster.push(name(rt, "beta"));
    roster
}

// Rows of alpha in a roster with beta: none yet.
pub(crate) fn alphas_rows(rt: &impl Abort, alloc: Global) -> Grants {
    no_rows(rt, alloc, alpha_and_beta(rt))
}

// Whether these are the rows.
fn has(rt: &impl Abort, rows: &Grants, listed: &[Row]) -> bool {
    let now = rows.list().expect(rt, "memory");
    let has = all_same(now.as_slice(), listed);
    drop(now);
    has
}

// An offer from 0 to 5.
fn offered(
    rt: &impl Abort,
    alloc: Global,
    rows: &mut Grants,
    actuator: &str,
    tenant: &str,
) -> Result<(), GrantFault> {
    let before = rows.list().expect(rt, "memory");
    let made = with_refusals!(alloc, rows.offer(name(rt, actuator), name(rt, tenant), 0, 5),
        Err(GrantFault::Memory) => {
            assert!(rt; has(rt, rows, before.as_slice()));
            rows.offer(name(rt, actuator), name(rt, tenant), 0, 5)
        }
    );
    drop(before);
    made
}

// A bind of g to an actuator of beta.
fn bound(
    rt: &impl Abort,
    alloc: Global,
    rows: &mut Grants,
    actuator: &str,
) -> Result<(), GrantFault> {
    let before = rows.list().expect(rt, "memory");
    let made = with_refusals!(alloc, rows.bind(name(rt, "g"), name(rt, "beta"), name(rt, actuator)),
        Err(GrantFault::Memory) => {
            assert!(rt; has(rt, rows, before.as_slice()));
            rows.bind(name(rt, "g"), name(rt, "beta"), name(rt, actuator))
        }
    );
    drop(before);
    made
}

// Whether a list of rows has the offer of a to beta and the bind of g to beta's a.
fn lists_both(rt: &impl Abort, alloc: Global, rows: &Grants) -> bool {
    let listed = with_refusals!(alloc, rows.list(), Err(_) => rows.list());
    let listed = listed.expect(rt, "memory");
    let lists_both = are_both(listed.as_slice());
    drop(listed);
    lists_both
}

// Whether these are the offer of a to beta and the bind of g to beta's a.
fn are_both(rows: &[Row]) -> bool {
    match rows {
        [Row::Offer(offer), Row::Bind(bind)] => {
            offer.actuator.as_str() == "a"
                && offer.tenant.as_str() == "beta"
                && bind.sensor.as_str() == "g"
                && bind.tenant.as_str() == "beta"
                && bind.actuator.as_str() == "a"
        }
        _ => false,
    }
}

// Whether a bind is of g to beta's a.
pub(crate) fn is_of_g(bind: Option<(&Name, usize, &Name)>) -> bool {
    match bind {
        Some((sensor, tenant, actuator)) => {
            sensor.as_str() == "g" && tenant == BETA && actuator.as_str() == "a"
        }
        None => false,
    }
}

#[test]
fn rows_are_made(rt: HostRuntime) {
    let alloc = rt.alloc();
    let made = with_refusals!(alloc, Grants::new(alloc, ALPHA, alpha_and_beta(&rt), 4, 4),
        Err(_) => Grants::new(alloc, ALPHA, alpha_and_beta(&rt), 4, 4)
    );
    let rows = made.expect(&rt, "memory");
    assert!(rt; without_memory!(alloc, rows.own()) == ALPHA);
    assert!(rt; without_memory!(alloc, rows.bind_at(0)).is_none());
    drop(rows);
}

#[test]
fn offers_are_made_and_taken_back(rt: HostRuntime) {
    let alloc = rt.alloc();
    let mut rows = alphas_rows(&rt, alloc);
    assert!(rt; offered(&rt, alloc, &mut rows, "a", "gamma") == Err(GrantFault::NoTenant));
    assert!(rt; offered(&rt, alloc, &mut rows, "a", "alpha") == Err(GrantFault::Own));
    assert!(rt; offered(&rt, alloc, &mut rows, "a", "beta") == Ok(()));
    assert!(rt; offered(&rt, alloc, &mut rows, "a", "beta") == Err(GrantFault::Twice));
    let (actuator, beta) = (name(&rt, "a"), name(&rt, "beta"));
    assert!(rt; without_memory!(alloc, rows.offers(&actuator, BETA)));
    assert!(rt; without_memory!(alloc, rows.bounds(&actuator, BETA)) == Some((0, 5)));
    assert!(rt; without_memory!(alloc, rows.unoffer(&actuator, &beta)) == Ok(()));
    assert!(rt; !rows.offers(&actuator, BETA));
    assert!(rt; rows.bounds(&actuator, BETA).is_none());
    drop(rows);
}

#[test]
fn binds_are_made_and_taken_back(rt: HostRuntime) {
    let alloc = rt.alloc();
    let mut rows = alphas_rows(&rt, alloc);
    let sensor = name(&rt, "g");
    assert!(rt; rows.unbind(&sensor) == Err(GrantFault::NotThere));
    assert!(rt; bound(&rt, alloc, &mut rows, "a") == Ok(()));
    assert!(rt; bound(&rt, alloc, &mut rows, "b") == Err(GrantFault::Twice));
    assert!(rt; is_of_g(without_memory!(alloc, rows.bind_at(0))));
    assert!(rt; without_memory!(alloc, rows.unbind(&sensor)) == Ok(()));
    assert!(rt; rows.bind_at(0).is_none());
    drop(rows);
}

#[test]
fn rows_are_listed_and_copied(rt: HostRuntime) {
    let alloc = rt.alloc();
    let mut rows = alphas_rows(&rt, alloc);
    assert!(rt; offered(&rt, alloc, &mut rows, "a", "beta") == Ok(()));
    assert!(rt; bound(&rt, alloc, &mut rows, "a") == Ok(()));
    assert!(rt; lists_both(&rt, alloc, &rows));
    let copied = with_refusals!(alloc, rows.copy(), Err(_) => rows.copy());
    drop(rows);
    let copy = copied.expect(&rt, "memory");
    assert!(rt; lists_both(&rt, alloc, &copy));
    drop(copy);
}
