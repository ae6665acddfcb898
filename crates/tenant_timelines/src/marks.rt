//! What a tenant is doing, and what happens to it.

ghost use Rattle.std.specs.Prelude.{◌≡◌};
ghost use Rattle.tenant_timelines.specs.inner.Marks.{mark_between};

use crate::places::Place;
use giotto_tasks::names::Name;

/// What a tenant is doing, as `show mode` reports it, without the mode time.
#[derive(PartialEq, Drop)]
pub enum Doing {
    Empty,
    Loaded(Name),
    Running(Name),
    StoppedAsked,
    StoppedOverrun(Name),
}

/// What a tenant is doing from a place on.
#[derive(Drop)]
pub struct Band {
    pub from: Place,
    pub doing: Doing,
}

/// What happens to a tenant at a place.
#[derive(Clone, Copy, Debug, PartialEq, Eq)]
pub enum Mark {
    /// The program is started.
    Start,
    /// A switch enters another mode.
    Switch,
    /// A waiting program is installed.
    Replaced,
    /// The tenant is stopped by its own command.
    Stop,
    /// A task was due and not completed, so the tenant is stopped.
    Overrun,
}

/// A mark, and where it is.
#[derive(Clone, Copy, Debug, PartialEq, Eq)]
pub struct Marked {
    pub place: Place,
    pub mark: Mark,
}

impl Mark {
    /// All kinds of marks, in the order of the legend.
    pub(crate) const ALL: [Mark; 5] = [
        Mark::Start,
        Mark::Switch,
        Mark::Replaced,
        Mark::Stop,
        Mark::Overrun,
    ];

    /// What happens between one line and the next, by what the tenant did before and does now.
    pub(crate) fn between(before: &Doing, now: &Doing) -> Option<Mark>
        ensures { result ≡ mark_between before.now now.now }
    {
        match (before, now) {
            (Doing::Running(old), Doing::Running(new)) => {
                if *old == *new {
                    None
                } else {
                    Some(Mark::Switch)
                }
            }
            (Doing::Running(_), Doing::StoppedAsked) => Some(Mark::Stop),
            (Doing::Running(_), Doing::StoppedOverrun(_)) => Some(Mark::Overrun),
            (_, Doing::Running(_)) => Some(Mark::Start),
            _ => None,
        }
    }

    /// The mark's word.
    pub(crate) fn as_str(self) -> &'static str {
        match self {
            Mark::Start => "start",
            Mark::Switch => "switch",
            Mark::Replaced => "replaced",
            Mark::Stop => "stop",
            Mark::Overrun => "overrun",
        }
    }
}
