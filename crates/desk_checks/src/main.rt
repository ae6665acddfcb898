//! Checks of a desk for `scripts/`: random schedules of threads, steps that are tried again if memory is refused, and what the tenants are
//! shown after steps. Many calls for `bench/`.
#![tactic(auto)]

ghost use Rattle.std.specs.Prelude.{◌≡◌};

mod calls;
mod requests;
mod schedules;
mod shown;
mod voices;
mod works;

use crate::works::{Work, done, work_of};
use std::process::ExitCode;

const USAGE: &str = "usage: desk_checks schedules|memory|shown|passes|open|archives|calls TIMES";

fn main(rt: HostRuntime) -> anyhow::Result<ExitCode> {
    let words: Vec<String> = std::env::args(&rt)?.collect(rt.alloc())?;
    let asked = asked_by(words.as_slice());
    drop(words);
    let Some((work, times)) = asked else {
        eprintln!(rt; "{USAGE}")?;
        return Ok(ExitCode::from(2));
    };
    let done = done(&rt, rt.alloc(), work, times)?;
    println!(rt; "{done}")?;
    Ok(ExitCode::SUCCESS)
}

// The work that the arguments request, and how often.
fn asked_by(words: &[String]) -> Option<(Work, u64)> {
    let [_, name, times] = words else {
        return None;
    };
    let times: u64 = times.as_str().parse().ok()?;
    Some((work_of(name.as_str())?, times))
}
