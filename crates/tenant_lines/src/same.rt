//! Comparison of commands and replies.

ghost use Rattle.std.specs.Prelude.{◌≡◌, ◌↔◌, IsTrue};

use crate::commands::Command;
use crate::grant_lines::GrantCommand;
use crate::ports::{PortName, PortValue};
use crate::replies::{Reply, Status};
use crate::shared_texts::SharedText;
use giotto_tasks::names::Name;
use giotto_tasks::same::{Same, all_same, is_same_option};

impl Same for SharedText {
    fn is_same(&self, other: &SharedText) -> bool {
        self.as_str() == other.as_str()
    }
}

impl Same for PortName {
    fn is_same(&self, other: &PortName) -> bool {
        if !is_same_option(&self.task, &other.task) {
            return false;
        }
        self.name.is_same(&other.name)
    }
}

impl Same for PortValue {
    fn is_same(&self, other: &PortValue) -> bool {
        if self.value != other.value {
            return false;
        }
        self.port.is_same(&other.port)
    }
}

fn are_same_two(first: &Name, second: &Name, others: &Name, and: &Name) -> bool
    ensures { IsTrue result ↔ ((first.now ≡ others.now) × (second.now ≡ and.now)) }
{
    if !first.is_same(others) {
        return false;
    }
    second.is_same(and)
}

impl Same for GrantCommand {
    fn is_same(&self, other: &GrantCommand) -> bool {
        match (self, other) {
            (
                GrantCommand::Offer {
                    actuator,
                    tenant,
                    bounds,
                },
                GrantCommand::Offer {
                    actuator: others,
                    tenant: to,
                    bounds: within,
                },
            ) => {
                if !are_same_two(actuator, tenant, others, to) {
                    return false;
                }
                is_same_option(bounds, within)
            }
            (
                GrantCommand::Unoffer { actuator, tenant },
                GrantCommand::Unoffer {
                    actuator: others,
                    tenant: to,
                },
            ) => are_same_two(actuator, tenant, others, to),
            (
                GrantCommand::Bind {
                    sensor,
                    tenant,
                    actuator,
                },
                GrantCommand::Bind {
                    sensor: others,
                    tenant: from,
                    actuator: of,
                },
            ) => {
                if !sensor.is_same(others) {
                    return false;
                }
                are_same_two(tenant, actuator, from, of)
            }
            (GrantCommand::Unbind { sensor }, GrantCommand::Unbind { sensor: others }) => {
                sensor.is_same(others)
            }
            (GrantCommand::Rows, GrantCommand::Rows) => true,
            _ => false,
        }
    }
}

impl Same for Command {
    fn is_same(&self, other: &Command) -> bool {
        match (self, other) {
            (Command::Load(one), Command::Load(other)) => one.is_same(other),
            (Command::Replace(one), Command::Replace(other)) => one.is_same(other),
            (Command::Start, Command::Start) => true,
            (Command::Stop, Command::Stop) => true,
            (Command::ShowMode, Command::ShowMode) => true,
            (Command::ShowPort(one), Command::ShowPort(other)) => one.is_same(other),
            (Command::ShowAll, Command::ShowAll) => true,
            (Command::Trace, Command::Trace) => true,
            (Command::Grants(one), Command::Grants(other)) => one.is_same(other),
            _ => false,
        }
    }
}

impl Same for Status {
    fn is_same(&self, other: &Status) -> bool {
        match (self, other) {
            (Status::Empty, Status::Empty) => true,
            (Status::Loaded(one), Status::Loaded(other)) => one.is_same(other),
            (Status::Running(one, time), Status::Running(other, others)) => {
                if time != others {
                    return false;
                }
                one.is_same(other)
            }
            (Status::StoppedAsked, Status::StoppedAsked) => true,
            (Status::StoppedOverrun(one), Status::StoppedOverrun(other)) => one.is_same(other),
            _ => false,
        }
    }
}

impl Same for Reply {
    fn is_same(&self, other: &Reply) -> bool {
        match (self, other) {
            (Reply::Loaded, Reply::Loaded) => true,
            (Reply::Replaced, Reply::Replaced) => true,
            (Reply::Started, Reply::Started) => true,
            (Reply::Stopped, Reply::Stopped) => true,
            (Reply::Mode(one), Reply::Mode(other)) => one.is_same(other),
            (Reply::Port(one), Reply::Port(other)) => one.is_same(other),
            (Reply::All(ones), Reply::All(others)) => all_same(ones.as_slice(), others.as_slice()),
            (Reply::Trace(ones), Reply::Trace(others)) => {
                all_same(ones.as_slice(), others.as_slice())
            }
            (Reply::Offered, Reply::Offered) => true,
            (Reply::Unoffered, Reply::Unoffered) => true,
            (Reply::Bound, Reply::Bound) => true,
            (Reply::Unbound, Reply::Unbound) => true,
            (Reply::Rows(ones), Reply::Rows(others)) => {
                all_same(ones.as_slice(), others.as_slice())
            }
            (Reply::Refused(one), Reply::Refused(other)) => one == other,
            _ => false,
        }
    }
}
