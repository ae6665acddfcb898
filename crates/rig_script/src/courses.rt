//! How a script went, and whether a report about it says less than it seems to.

ghost use Rattle.std.specs.Prelude.{◌≡◌};
ghost use Rattle.rig_script.specs.Courses.{is_tenants};
ghost use Rattle.rig_script.specs.inner.Courses.{shortfall_of};
ghost use Rattle.rig_script.specs.inner.Ended.{end_after};

use crate::answers::Ending;
use crate::speakers::Speaker;
use std::fmt;

/// How a script went.
#[derive(Clone, Copy, Debug, PartialEq, Eq)]
pub struct Course {
    /// The number of the line that ended the script for all, if a line was too long or not UTF-8.
    pub bad_line: Option<u64>,
    /// Whether a line was of a tenant of the configuration.
    pub has_tenant: bool,
}

/// Why a report about a script says less than it seems to. Its `Display` is a line for standard error.
#[derive(Clone, Copy, Debug, PartialEq, Eq)]
pub enum Shortfall {
    /// The line with this number was too long or not UTF-8, and ended the script for all.
    CutOff(u64),
    /// No line was of a tenant of the configuration.
    NoTenant,
}

impl fmt::Display for Shortfall {
    fn fmt<W: fmt::Write>(&self, f: &mut fmt::Formatter<W>) -> fmt::Result {
        match self {
            Shortfall::CutOff(number) => write!(
                f,
                "{number}: longer than 16384 bytes or not UTF-8: it ends the script"
            ),
            Shortfall::NoTenant => write!(
                f,
                "no line of the script is from a tenant of the configuration: is `--config` missing or wrong?"
            ),
        }
    }
}

impl Course {
    /// Returns why a report about the script says less than it seems to, if it does.
    ///
    /// Either the script was cut off, or else no line was a tenant's.
    pub fn shortfall(self) -> Option<Shortfall>
        ensures { result ≡ shortfall_of self }
    {
        if let Some(number) = self.bad_line {
            return Some(Shortfall::CutOff(number));
        }
        if self.has_tenant {
            None
        } else {
            Some(Shortfall::NoTenant)
        }
    }
}

/// Returns the course of a script that ended in this way after `answered` lines. `has_tenant` says whether one of them was a tenant's.
pub(crate) fn course_of(ending: Ending, answered: u64, has_tenant: bool) -> Course
    ensures tenant { result.has_tenant ≡ has_tenant }
    ensures line { result.bad_line ≡ end_after ending answered }
{
    let bad_line = match ending {
        Ending::Input => None,
        Ending::BadLine => Some(answered.saturating_add(1)),
    };
    Course {
        bad_line,
        has_tenant,
    }
}

/// Whether this speaker is a tenant of the configuration.
pub(crate) fn is_tenants(speaker: Speaker) -> bool
    ensures { result ≡ is_tenants speaker }
{
    matches!(speaker, Speaker::Tenant(_))
}
