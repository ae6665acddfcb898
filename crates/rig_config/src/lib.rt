//! The configuration of a rig: its lines, and its tenants with their budgets.
//!
//! [`read_config`] reads a configuration from a TOML text, or returns the first fault in it. [`built_in`] is the configuration
//! without a text.
//!
//! `specs/Reading.antt` says what a text means, with one line for each field. `specs/Fields.antt` has the ranges, and
//! `specs/Ranges.antt` what always holds of a [`Config`]. `proofs/ConfigExamples.antt` has examples of texts.
#![tactic(auto)]

ghost use Rattle.std.specs.Prelude.{◌≡◌, IfOk};
ghost use Rattle.rig_config.specs.BuiltIn.{built_in_tenant, built_in_config};
ghost use Rattle.rig_config.specs.Ranges.{IsConfig};
ghost use Rattle.rig_config.specs.Roster.{greeted, has, place_of};

pub mod faults;
pub mod intervals;
pub mod laws;
mod reading;
mod same;
mod values;

use giotto_tasks::lists::List;
use giotto_tasks::names::Name;
use intervals::Bounds;
pub use reading::read_config;
use std::alloc::{AllocError, Global};
use std::marker::Model;

/// The place of a tenant in the configuration, counted from 0.
pub type TenantId = usize;

/// What one tenant may use.
#[derive(Drop)]
pub struct Budgets {
    /// The lines that the tenant's sensors may read, as numbers below the number of lines.
    pub reads: List<usize>,
    /// The lines that the tenant's actuators may drive, as numbers below the number of lines.
    pub writes: List<usize>,
    /// The greatest length of a program text, in bytes: 1 to 16,000.
    pub bytes: usize,
    /// The greatest number of ports of a program, inputs and states of tasks included: 1 to 1,024.
    pub ports: usize,
    /// The greatest number of tasks of a program: 1 to 64.
    pub tasks: usize,
    /// The greatest number of modes of a program: 1 to 64.
    pub modes: usize,
    /// The greatest cost of a program, in steps: 1 to 1,000,000.
    pub steps: u64,
    /// How many trace records are kept: 1 to 4,096.
    pub trace: usize,
    /// The greatest number of offers: 1 to 64.
    pub offers: usize,
    /// The greatest number of binds: 1 to 64.
    pub binds: usize,
    /// The bounds of an offer that names none.
    pub bounds: Bounds,
}

impl Budgets {
    /// Equal budgets.
    ///
    /// # Errors
    /// Out of memory.
    pub fn copy(&self, alloc: Global) -> Result<Budgets, AllocError>
        ensures { IfOk result (λ budgets. budgets ≡ self.now) }
    {
        Ok(Budgets {
            reads: List::from_vec(Vec::from_slice(alloc, self.reads.as_slice())?),
            writes: List::from_vec(Vec::from_slice(alloc, self.writes.as_slice())?),
            bytes: self.bytes,
            ports: self.ports,
            tasks: self.tasks,
            modes: self.modes,
            steps: self.steps,
            trace: self.trace,
            offers: self.offers,
            binds: self.binds,
            bounds: self.bounds.copy(),
        })
    }
}

/// One tenant of the rig.
#[derive(Drop)]
pub struct TenantConfig {
    /// The tenant's name: a letter a to z, then a to z, 0 to 9 or `_`; neither `op` nor `host`.
    pub name: Name,
    /// The word with which a session greets as this tenant: 1 to 64 bytes from 0x21 to 0x7E.
    pub key: List<u8>,
    /// What the tenant may use.
    pub budgets: Budgets,
}

impl TenantConfig {
    // Whether these are the tenant's name and key.
    fn has(&self, name: &str, key: &str) -> bool
        ensures { result ≡ has self.now name.now key.now }
    {
        self.name.as_str() == name && self.key.as_slice() == key.as_bytes()
    }

    // An equal tenant.
    fn copy(&self, alloc: Global) -> Result<TenantConfig, AllocError>
        ensures { IfOk result (λ tenant. tenant ≡ self.now) }
    {
        Ok(TenantConfig {
            name: self.name.copy(),
            key: List::from_vec(Vec::from_slice(alloc, self.key.as_slice())?),
            budgets: self.budgets.copy(alloc)?,
        })
    }
}

/// The configuration of a rig: 1 to 64 lines, and 1 to 16 tenants of different names, of which no two may drive the same line.
/// Each field is always within its range. Contracts see it as the number of lines and the list of tenants.
#[derive(Drop)]
pub struct Config {
    lines: usize,
    tenants: List<TenantConfig>,
}

impl Model for Config {
    ghost use Rattle.rig_config.specs.Ranges.{IsConfig};
    ghost use Rattle.rig_config.specs.Roster.{Rig};

    ghost Value = { Rig };

    ghost view = { λ c. record { lines = c.lines; tenants = c.tenants } };

    ghost invariant = { λ c. IsConfig (record { lines = c.lines; tenants = c.tenants }) };
}

impl Config {
    /// The number of lines: 1 to 64.
    pub fn lines(&self) -> usize
        ensures value { result ≡ self.now.lines }
        ensures kept { IsConfig self.now }
    {
        self.lines
    }

    /// The roster: 1 to 16 tenants of different names.
    pub fn tenants(&self) -> &[TenantConfig]
        ensures value { result.now ≡ self.now.tenants }
        ensures kept { IsConfig self.now }
    {
        self.tenants.as_slice()
    }

    /// An equal configuration.
    ///
    /// # Errors
    /// Out of memory.
    pub fn copy(&self, alloc: Global) -> Result<Config, AllocError>
        ensures { IfOk result (λ config. config ≡ self.now) }
    {
        let mut tenants = Vec::new(alloc);
        for tenant in self.tenants.as_slice() {
            tenants.push(tenant.copy(alloc)?)?;
        }
        Ok(Config {
            lines: self.lines,
            tenants: List::from_vec(tenants),
        })
    }

    /// The place of the tenant with this name, or `None` if the roster has no such tenant.
    pub fn place_of(&self, name: &str) -> Option<TenantId>
        ensures { result ≡ place_of self.now name.now }
    {
        self.tenants
            .as_slice()
            .iter()
            .position(|tenant| tenant.name.as_str() == name)
    }

    /// The place of the tenant with this name and this key, or `None` if there is none.
    pub fn greet(&self, name: &str, key: &str) -> Option<TenantId>
        ensures { result ≡ greeted self.now name.now key.now }
    {
        self.tenants
            .as_slice()
            .iter()
            .position(|tenant| tenant.has(name, key))
    }
}

/// The configuration without a file: one line, and the tenants alpha, which may drive the line, and beta.
///
/// # Errors
/// Out of memory.
pub fn built_in(alloc: Global) -> Result<Config, AllocError>
    ensures { IfOk result (λ config. config ≡ built_in_config) }
{
    let (Some(alpha), Some(beta)) = (Name::new("alpha"), Name::new("beta")) else {
        unreachable!();
    };
    let mut tenants = Vec::new(alloc);
    tenants.push(built_in_tenant(alloc, alpha, b"ka", &[0])?)?;
    tenants.push(built_in_tenant(alloc, beta, b"kb", &[])?)?;
    Ok(Config {
        lines: 1,
        tenants: List::from_vec(tenants),
    })
}

// A tenant that may read the one line, and drive the given ones.
fn built_in_tenant(
    alloc: Global,
    name: Name,
    key: &[u8],
    writes: &[usize],
) -> Result<TenantConfig, AllocError>
    ensures { IfOk result (λ tenant. tenant ≡ built_in_tenant name key.now writes.now) }
{
    let budgets = Budgets {
        reads: List::from_vec(Vec::from_slice(alloc, &[0])?),
        writes: List::from_vec(Vec::from_slice(alloc, writes)?),
        bytes: 4096,
        ports: 64,
        tasks: 16,
        modes: 16,
        steps: 10000,
        trace: 8,
        offers: 4,
        binds: 4,
        bounds: Bounds::whole(),
    };
    Ok(TenantConfig {
        name,
        key: List::from_vec(Vec::from_slice(alloc, key)?),
        budgets,
    })
}
