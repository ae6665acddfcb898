//! Many calls at a desk. `bench/desks` counts their instructions.

ghost use Rattle.std.specs.Prelude.{◌≡◌};

use locked_book::desks::Desk;
use locked_book::histories::NewHistory;
use locked_book::naming::Naming;
use locked_book::passes::Pass;
use rig_model::config::{Config, TenantId, built_in};
use rig_model::lines::commands::Command;
use std::alloc::Global;
use std::marker::Brand;
use std::sync::Wait;

const FIRST: TenantId = 0;

/// Makes `passes` passes of `calls` calls each at a desk of the built-in configuration, and closes it with all of them.
///
/// Returns the number of entries in the log; -1 if something is refused.
pub(crate) fn closed<R: Wait>(
    rt: &R,
    alloc: Global,
    passes: u64,
    calls: u64,
) -> anyhow::Result<i64> {
    let config = built_in(alloc)?;
    let history = NewHistory::new();
    let entries = closed_desk::<Brand, _>(rt, alloc, &config, history, passes, calls);
    Ok(number_of(entries))
}

/// Makes `passes` passes of `calls` calls each at a desk of the built-in configuration, and drops it without closing it.
///
/// Returns the number of calls; -1 if something is refused.
pub(crate) fn dropped<R: Wait>(
    rt: &R,
    alloc: Global,
    passes: u64,
    calls: u64,
) -> anyhow::Result<i64> {
    let config = built_in(alloc)?;
    let history = NewHistory::new();
    let made = dropped_desk::<Brand, _>(rt, alloc, &config, history, passes, calls);
    Ok(number_of(made))
}

/// Makes `passes` passes of `calls` calls each at a desk of the built-in configuration, archives them, and drops the desk.
///
/// Returns the number of entries in the archive; -1 if something is refused.
pub(crate) fn archived<R: Wait>(
    rt: &R,
    alloc: Global,
    passes: u64,
    calls: u64,
) -> anyhow::Result<i64> {
    let config = built_in(alloc)?;
    let history = NewHistory::new();
    let entries = archived_desk::<Brand, _>(rt, alloc, &config, history, passes, calls);
    Ok(number_of(entries))
}

/// The number, or -1 if there is none.
pub(crate) fn number_of(entries: Option<u64>) -> i64 {
    entries
        .and_then(|entries| i64::try_from(entries).ok())
        .unwrap_or(-1)
}

fn closed_desk<N: Naming, R: Wait>(
    rt: &R,
    alloc: Global,
    config: &Config,
    history: NewHistory,
    passes: u64,
    calls: u64,
) -> Option<u64>
    requires config { config.now ≡ N.config }
    requires first_tick { 0 ≡ N.first_tick }
    requires history { history ≡ N.history }
{
    let desk = Desk::<N>::with_history(alloc, config, 0, history).ok()?;
    let passes = called_passes(rt, alloc, &desk, passes, calls)?;
    let book = desk.close(passes).ok()?;
    Some(book.log().len() as u64)
}

fn dropped_desk<N: Naming, R: Wait>(
    rt: &R,
    alloc: Global,
    config: &Config,
    history: NewHistory,
    passes: u64,
    calls: u64,
) -> Option<u64>
    requires config { config.now ≡ N.config }
    requires first_tick { 0 ≡ N.first_tick }
    requires history { history ≡ N.history }
{
    let desk = Desk::<N>::with_history(alloc, config, 0, history).ok()?;
    let made = called_passes(rt, alloc, &desk, passes, calls)?;
    Some((made.len() as u64).wrapping_mul(calls))
}

fn archived_desk<N: Naming, R: Wait>(
    rt: &R,
    alloc: Global,
    config: &Config,
    history: NewHistory,
    passes: u64,
    calls: u64,
) -> Option<u64>
    requires config { config.now ≡ N.config }
    requires first_tick { 0 ≡ N.first_tick }
    requires history { history ≡ N.history }
{
    let desk = Desk::<N>::with_history(alloc, config, 0, history).ok()?;
    let _passes = called_passes(rt, alloc, &desk, passes, calls)?;
    let archive = desk.archive(rt).ok()?;
    Some(archive.log().len() as u64)
}

fn called_passes<N: Naming>(
    rt: &impl Wait,
    alloc: Global,
    desk: &Desk<N>,
    number: u64,
    calls: u64,
) -> Option<Vec<Pass<N>>> {
    let mut passes = Vec::new(alloc);
    for _pass in 0..number {
        passes.push(called_pass(rt, desk, calls)?).ok()?;
    }
    Some(passes)
}

// A new pass with this number of calls.
fn called_pass<N: Naming>(rt: &impl Wait, desk: &Desk<N>, calls: u64) -> Option<Pass<N>> {
    let mut pass = desk.pass(rt).ok()?;
    for _call in 0..calls {
        let _ = desk.call(rt, &mut pass, FIRST, Command::ShowMode).ok()?;
    }
    Some(pass)
}
