//! What tests show on desks of the built-in configuration. A type says which desk it is; only this file picks that type.

ghost use Rattle.std.specs.Prelude.{◌≡◌};

use crate::archives::hands_out_its_log;
use crate::desks::{Refusal, refuses};
use crate::fixtures::rig;
use crate::late_jobs::held_job_is_late;
use crate::pools::{Work, works};
use crate::sessions::{Session, stand_in_one_history, talks};
use crate::suppliers::talk_at_once;
use crate::threads::{Shared, shares};
use locked_book::desks::Desk;
use locked_book::histories::NewHistory;
use locked_book::naming::Naming;
use rig_model::config::Config;
use std::alloc::Global;
use std::marker::Brand;
use std::process::Abort;
use std::sync::Wait;
use std::thread::Threads;
use std::time::Clock;

// What a test shows.
#[derive(Clone, Copy)]
pub(crate) enum Shown<'a> {
    Refusal(Refusal),
    Session(Session<'a>),
    Shared(Shared),
    Work(Work),
    LateJob,
    Sessions,
    Suppliers,
    Archives,
}

// Whether it holds.
pub(crate) fn is_shown<R: Threads + Wait + Clock + Abort + Sync>(
    rt: &R,
    alloc: Global,
    shown: Shown<'_>,
) -> bool {
    let config = rig(rt, alloc);
    let is_so = on_desks::<Brand, _>(rt, alloc, &config, NewHistory::new(), shown);
    drop(config);
    is_so
}

// Whether it holds on a desk, next to another desk of the same configuration.
fn on_desks<N: Naming + Send + Sync, R: Threads + Wait + Clock + Abort + Sync>(
    rt: &R,
    alloc: Global,
    config: &Config,
    history: NewHistory,
    shown: Shown<'_>,
) -> bool
    requires config { config.now ≡ N.config }
    requires first_tick { 0 ≡ N.first_tick }
    requires history { history ≡ N.history }
{
    let desk = Desk::<N>::with_history(alloc, config, 0, history).expect(rt, "memory");
    let other = Desk::<N>::new(alloc, config, 0).expect(rt, "memory");
    let is_so = match shown {
        Shown::Refusal(refusal) => refuses(rt, desk, &other, refusal),
        Shown::Session(session) => talks(rt, alloc, config, desk, session),
        Shown::Shared(shared) => shares(rt, alloc, desk, &other, shared),
        Shown::Work(work) => works(rt, alloc, desk, work),
        Shown::LateJob => held_job_is_late(rt, alloc, desk),
        Shown::Sessions => stand_in_one_history(rt, alloc, config, desk),
        Shown::Archives => hands_out_its_log(rt, alloc, desk),
        Shown::Suppliers => talk_at_once(rt, alloc, config, desk, &other),
    };
    drop(other);
    is_so
}
