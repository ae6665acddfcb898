//! The fields of a configuration, and why a text gives no configuration.

ghost use Rattle.std.specs.Prelude.{◌≡◌, None, Some};
ghost use Rattle.rig_config.specs.Fields.{field_of_fault, is_in_range, reason_of, rig_field, tenant_field, word_of};

use crate::TenantId;
use std::alloc::{AllocError, AllocFailed};
use std::fmt;
use thiserror::Error;

/// A field of a configuration: the first three are the rig's, the others a tenant's.
#[derive(Clone, Copy, Debug, PartialEq, Eq)]
pub enum Field {
    /// `version`: the version of the format, which is 1 or 2.
    Version,
    /// `lines`: the number of lines, 1 to 64.
    Lines,
    /// `tenant`: the tenants, an array of 1 to 16 tables.
    Tenant,
    /// `name`: the tenant's name.
    Name,
    /// `key`: the word with which a session greets as the tenant.
    Key,
    /// `reads`: the lines that the tenant's sensors may read.
    Reads,
    /// `writes`: the lines that the tenant's actuators may drive.
    Writes,
    /// `bytes`: the greatest length of a program text.
    Bytes,
    /// `ports`: the greatest number of ports.
    Ports,
    /// `tasks`: the greatest number of tasks.
    Tasks,
    /// `modes`: the greatest number of modes.
    Modes,
    /// `steps`: the greatest cost.
    Steps,
    /// `trace`: how many records are kept.
    Trace,
    /// `offers`: the greatest number of offers.
    Offers,
    /// `binds`: the greatest number of binds.
    Binds,
    /// `low`, in version 2: the least value of an offer that names none.
    Low,
    /// `high`, in version 2: the greatest value of an offer that names none.
    High,
}

impl Field {
    /// The field's word in a configuration.
    pub fn word(self) -> &'static str
        ensures { result.now ≡ word_of self }
    {
        match self {
            Field::Version => "version",
            Field::Lines => "lines",
            Field::Tenant => "tenant",
            Field::Name => "name",
            Field::Key => "key",
            Field::Reads => "reads",
            Field::Writes => "writes",
            Field::Bytes => "bytes",
            Field::Ports => "ports",
            Field::Tasks => "tasks",
            Field::Modes => "modes",
            Field::Steps => "steps",
            Field::Trace => "trace",
            Field::Offers => "offers",
            Field::Binds => "binds",
            Field::Low => "low",
            Field::High => "high",
        }
    }

    // Whether the field may have this number, or a value of this length.
    pub(crate) fn allows(self, number: usize) -> bool
        ensures { result ≡ is_in_range self number }
    {
        match self {
            Field::Version => 1 <= number && number <= 2,
            Field::Lines => 1 <= number && number <= 64,
            Field::Tenant => 1 <= number && number <= 16,
            Field::Name => 1 <= number && number <= 32,
            Field::Key => 1 <= number && number <= 64,
            Field::Reads => true,
            Field::Writes => true,
            Field::Bytes => 1 <= number && number <= 16000,
            Field::Ports => 1 <= number && number <= 1024,
            Field::Tasks => 1 <= number && number <= 64,
            Field::Modes => 1 <= number && number <= 64,
            Field::Steps => 1 <= number && number <= 1000000,
            Field::Trace => 1 <= number && number <= 4096,
            Field::Offers => 1 <= number && number <= 64,
            Field::Binds => 1 <= number && number <= 64,
            Field::Low => true,
            Field::High => true,
        }
    }
}

/// A field of the rig, or of the tenant at a place of the roster.
#[derive(Clone, Copy, Debug, PartialEq, Eq)]
pub struct FieldPlace {
    /// The tenant's place, counted from 0; `None` for a field of the rig.
    pub tenant: Option<TenantId>,
    /// The field.
    pub field: Field,
}

impl FieldPlace {
    // A field of the rig.
    pub(crate) fn of_rig(field: Field) -> FieldPlace
        ensures { result ≡ rig_field field }
    {
        FieldPlace {
            tenant: None,
            field,
        }
    }

    // A field of a tenant.
    pub(crate) fn of_tenant(tenant: TenantId, field: Field) -> FieldPlace
        ensures { result ≡ tenant_field tenant field }
    {
        FieldPlace {
            tenant: Some(tenant),
            field,
        }
    }
}

impl fmt::Display for FieldPlace {
    fn fmt<W: fmt::Write>(&self, f: &mut fmt::Formatter<W>) -> fmt::Result {
        let word = self.field.word();
        match self.tenant {
            None => write!(f, "`{word}`"),
            Some(tenant) => write!(f, "`{word}` of tenant {tenant}, counted from 0,"),
        }
    }
}

/// Why a text gives no configuration: the first fault in the order of the checks.
#[derive(Clone, Copy, Debug, PartialEq, Eq, Error)]
pub enum ConfigFault {
    /// The text isn't a TOML document.
    #[error("the text is no TOML document")]
    NotToml,
    /// The field is missing.
    #[error("{0} is missing")]
    Missing(FieldPlace),
    /// The field's value is of another kind, or out of its range.
    #[error("{0} is out of its range, or of another kind")]
    Range(FieldPlace),
    /// Two tenants have the same name, or may drive the same line.
    #[error("two tenants share a value of `{}`", .0.word())]
    Twice(Field),
    /// Out of memory.
    #[error("no memory for the configuration")]
    Memory,
}

impl ConfigFault {
    /// What is wrong, in one or two words, as the program prints it after `config: `.
    pub fn reason(self) -> &'static str
        ensures { result.now ≡ reason_of self }
    {
        match self {
            ConfigFault::NotToml => "not toml",
            ConfigFault::Missing(_) => "missing",
            ConfigFault::Range(_) => "range",
            ConfigFault::Twice(_) => "twice",
            ConfigFault::Memory => "memory",
        }
    }

    /// The field that is wrong, if the fault is in a field.
    pub fn field(self) -> Option<Field>
        ensures { result ≡ field_of_fault self }
    {
        match self {
            ConfigFault::Missing(at) => Some(at.field),
            ConfigFault::Range(at) => Some(at.field),
            ConfigFault::Twice(field) => Some(field),
            ConfigFault::NotToml => None,
            ConfigFault::Memory => None,
        }
    }
}

impl From<AllocError> for ConfigFault {
    ghost use Rattle.std.specs.Prelude.{◌≡◌};
    ghost use Rattle.rig_config.specs.declared.faults.ConfigFault.TheVariants.{Memory};

    ghost from_gives = { λ _ fault. fault ≡ Memory };

    fn from(_error: AllocError) -> ConfigFault {
        ConfigFault::Memory
    }
}

impl<T: Drop> From<AllocFailed<T>> for ConfigFault {
    ghost use Rattle.std.specs.Prelude.{◌≡◌};
    ghost use Rattle.rig_config.specs.declared.faults.ConfigFault.TheVariants.{Memory};

    ghost from_gives = { λ _ fault. fault ≡ Memory };

    fn from(_error: AllocFailed<T>) -> ConfigFault {
        ConfigFault::Memory
    }
}
