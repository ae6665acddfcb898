//! The commands with which tenants grant values to each other, and the lines that spell them.

ghost use Rattle.std.specs.Prelude.{◌≡◌, ◌&&◌, ◌<◌, codes, length};
ghost use Rattle.giotto_tasks.specs.Names.{same_name};
ghost use Rattle.tenant_lines.specs.GrantLines.{bounds_of_words, grant_command_of_words, offer_command, unoffer_command, bind_command, bind_command_to, unbind_command};
ghost use Rattle.tenant_lines.specs.Words.{words_of};
ghost use Rattle.tenant_lines.specs.inner.CutLines.{words_from};
ghost use Rattle.tenant_lines.specs.inner.GrantWords.{offer_by, offer_within, word_behind};

use crate::command_lines::name_of_word;
use crate::words::{behind_first_word, cut, first_word, value_of_word};
use giotto_tasks::names::Name;
use tenant_grants::config::intervals::Bounds;

/// A command about grants, one variant for each form. An *offer* lets another tenant read an actuator. A *bind* gives a
/// sensor of the tenant the value of an offered actuator.
#[derive(Drop)]
pub enum GrantCommand {
    /// `offer NAME to TENANT` or `offer NAME to TENANT from LO to HI`: offers the value of an actuator to a tenant.
    Offer {
        actuator: Name,
        tenant: Name,
        /// From LO to HI, if the command has them.
        bounds: Option<Bounds>,
    },
    /// `unoffer NAME to TENANT`: takes that offer back.
    Unoffer {
        actuator: Name,
        tenant: Name,
    },
    /// `bind NAME from TENANT.NAME`: binds a sensor to the value of a tenant's actuator.
    Bind {
        sensor: Name,
        tenant: Name,
        actuator: Name,
    },
    /// `unbind NAME`: takes that bind back.
    Unbind {
        sensor: Name,
    },
    /// `rows`: lists what the tenant offers and binds.
    Rows,
}

impl GrantCommand {
    /// An equal command. Takes no memory.
    pub fn copy(&self) -> GrantCommand
        ensures { result ≡ self.now }
    {
        match self {
            GrantCommand::Offer {
                actuator,
                tenant,
                bounds,
            } => GrantCommand::Offer {
                actuator: actuator.copy(),
                tenant: tenant.copy(),
                bounds: copy_of(bounds),
            },
            GrantCommand::Unoffer { actuator, tenant } => GrantCommand::Unoffer {
                actuator: actuator.copy(),
                tenant: tenant.copy(),
            },
            GrantCommand::Bind {
                sensor,
                tenant,
                actuator,
            } => GrantCommand::Bind {
                sensor: sensor.copy(),
                tenant: tenant.copy(),
                actuator: actuator.copy(),
            },
            GrantCommand::Unbind { sensor } => GrantCommand::Unbind {
                sensor: sensor.copy(),
            },
            GrantCommand::Rows => GrantCommand::Rows,
        }
    }
}

// Equal bounds, or none.
fn copy_of(bounds: &Option<Bounds>) -> Option<Bounds>
    ensures { result ≡ bounds.now }
{
    match bounds {
        Some(bounds) => Some(bounds.copy()),
        None => None,
    }
}

/// The command about grants of a line, given as its first word and what follows it, without the tenant's name.
///
/// The forms are `offer NAME to TENANT`, `offer NAME to TENANT from LO to HI`, `unoffer NAME to TENANT`,
/// `bind NAME from TENANT.NAME`, `unbind NAME` and `rows`. `None` for every other line.
///
/// Words are separated by one or more blanks. NAME and TENANT have the shape of a program's name; keywords are allowed.
/// TENANT.NAME is cut at its first dot. LO and HI are i64s in decimal, and LO isn't above HI. Takes no memory.
pub(crate) fn grant_command_of(word: &str, behind: &str) -> Option<GrantCommand>
    ensures { result ≡ grant_command_of_words (words_from word.now behind.now) }
{
    let (name, rest) = cut(behind);
    match word {
        "offer" => offer_by(name, rest),
        "unoffer" => unoffer(name, word_behind("to", rest)),
        "bind" => bind(name, word_behind("from", rest)),
        "unbind" => {
            if !first_word(rest).is_empty() {
                return None;
            }
            unbind(name)
        }
        "rows" => name.is_empty().then_some(GrantCommand::Rows),
        _ => None,
    }
}

// The second word of a line that has two words and begins with this one; empty for other lines.
fn word_behind<'a>(word: &str, line: &'a str) -> &'a str
    requires { 0 < length word.now }
    ensures { result.now ≡ word_behind word.now (words_of line.now) }
{
    if first_word(line) != word {
        return "";
    }
    let behind = behind_first_word(line);
    if !first_word(behind_first_word(behind)).is_empty() {
        return "";
    }
    first_word(behind)
}

// `rest` is `to TENANT`, or `to TENANT from LO to HI` if the offer has bounds.
fn offer_by(actuator: &str, rest: &str) -> Option<GrantCommand>
    ensures { result ≡ offer_by actuator.now (words_of rest.now) }
{
    let behind = behind_first_word(rest);
    let more = behind_first_word(behind);
    if first_word(more).is_empty() {
        return offer(actuator, word_behind("to", rest), None);
    }
    if !lead_to_bounds(first_word(rest), first_word(more)) {
        return None;
    }
    offer_within(actuator, first_word(behind), behind_first_word(more))
}

// Whether these are `to`, the word before a tenant, and `from`, the word before bounds.
fn lead_to_bounds(before_tenant: &str, before_bounds: &str) -> bool
    ensures { result ≡ (same_name before_tenant.now (codes "to") && same_name before_bounds.now (codes "from")) }
{
    before_tenant == "to" && before_bounds == "from"
}

// `rest` is `LO to HI`.
fn offer_within(actuator: &str, tenant: &str, rest: &str) -> Option<GrantCommand>
    ensures { result ≡ offer_within actuator.now tenant.now (words_of rest.now) }
{
    let high = word_behind("to", behind_first_word(rest));
    let bounds = bounds_of(first_word(rest), high)?;
    offer(actuator, tenant, Some(bounds))
}

fn bounds_of(low: &str, high: &str) -> Option<Bounds>
    ensures { result ≡ bounds_of_words low.now high.now }
{
    let low = value_of_word(low)?;
    let high = value_of_word(high)?;
    Bounds::new(low, high)
}

fn offer(actuator: &str, tenant: &str, bounds: Option<Bounds>) -> Option<GrantCommand>
    ensures { result ≡ offer_command actuator.now tenant.now bounds }
{
    Some(GrantCommand::Offer {
        actuator: name_of_word(actuator)?,
        tenant: name_of_word(tenant)?,
        bounds,
    })
}

fn unoffer(actuator: &str, tenant: &str) -> Option<GrantCommand>
    ensures { result ≡ unoffer_command actuator.now tenant.now }
{
    Some(GrantCommand::Unoffer {
        actuator: name_of_word(actuator)?,
        tenant: name_of_word(tenant)?,
    })
}

// `port` is TENANT.NAME.
fn bind(sensor: &str, port: &str) -> Option<GrantCommand>
    ensures { result ≡ bind_command sensor.now port.now }
{
    let (tenant, actuator) = port.split_once('.')?;
    bind_to(sensor, tenant, actuator)
}

fn bind_to(sensor: &str, tenant: &str, actuator: &str) -> Option<GrantCommand>
    ensures { result ≡ bind_command_to sensor.now tenant.now actuator.now }
{
    Some(GrantCommand::Bind {
        sensor: name_of_word(sensor)?,
        tenant: name_of_word(tenant)?,
        actuator: name_of_word(actuator)?,
    })
}

fn unbind(sensor: &str) -> Option<GrantCommand>
    ensures { result ≡ unbind_command sensor.now }
{
    Some(GrantCommand::Unbind {
        sensor: name_of_word(sensor)?,
    })
}
