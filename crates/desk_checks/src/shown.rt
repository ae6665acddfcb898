//! Steps at a desk, each taken once, and what is shown after them. `scripts/check-memory` compares this with and without a refusal.

ghost use Rattle.std.specs.Prelude.{◌≡◌};

use crate::calls::number_of;
use crate::requests::{ALPHA, BETA, Outcome, STEPS, Scene, length, new_scene, take};
use locked_book::desks::Desk;
use locked_book::histories::NewHistory;
use locked_book::naming::Naming;
use rig_model::config::{Config, TenantId, built_in};
use rig_model::lines::command_lines::command_of;
use std::alloc::Global;
use std::io::Print;
use std::marker::Brand;
use std::sync::Wait;

// Questions that show everything of both tenants, each with its tenant and the tenant's name.
const QUESTIONS: [(TenantId, &str, &str); 8] = [
    (ALPHA, "alpha", "show mode"),
    (ALPHA, "alpha", "show all"),
    (ALPHA, "alpha", "rows"),
    (ALPHA, "alpha", "trace"),
    (BETA, "beta", "show mode"),
    (BETA, "beta", "show all"),
    (BETA, "beta", "rows"),
    (BETA, "beta", "trace"),
];

/// Takes the first `times` steps at a desk of the built-in configuration, each once, until one doesn't have its expected result. Then
/// prints the number of entries, that of the jobs that no step has completed, the values of the lines, and what the tenants are shown.
///
/// Returns how many steps had their expected result; -1 if there is no memory for the desk or the printed text.
pub(crate) fn after_steps<R: Wait + Print>(
    rt: &R,
    alloc: Global,
    times: u64,
) -> anyhow::Result<i64> {
    let config = built_in(alloc)?;
    let mut text = String::new(alloc);
    let taken = at_desk::<Brand, _>(rt, alloc, &config, NewHistory::new(), times, &mut text);
    rt.print(text.as_str())?;
    Ok(number_of(taken))
}

fn at_desk<N: Naming, R: Wait>(
    rt: &R,
    alloc: Global,
    config: &Config,
    history: NewHistory,
    times: u64,
    text: &mut String,
) -> Option<u64>
    requires config { config.now ≡ N.config }
    requires first_tick { 0 ≡ N.first_tick }
    requires history { history ≡ N.history }
{
    let desk = Desk::<N>::with_history(alloc, config, 0, history).ok()?;
    let mut scene = new_scene(rt, alloc, config)?;
    add_shown(rt, &desk, &mut scene, times, text)
}

// Takes the steps, and adds what is shown after them. Returns how many steps had their expected result.
fn add_shown<N: Naming>(
    rt: &impl Wait,
    desk: &Desk<N>,
    scene: &mut Scene<N>,
    times: u64,
    text: &mut String,
) -> Option<u64> {
    let taken = taken_once(rt, desk, scene, times);
    add_all(rt, desk, scene, text)?;
    Some(taken)
}

// The number of the first steps that had their expected result. The step after them is the last that is taken.
fn taken_once<N: Naming>(rt: &impl Wait, desk: &Desk<N>, scene: &mut Scene<N>, times: u64) -> u64 {
    let mut taken = 0u64;
    for (step, _time) in STEPS.iter().zip(0..times) {
        match take(rt, desk, scene, step) {
            Outcome::Right => taken = taken.wrapping_add(1),
            Outcome::Refused | Outcome::Lost => return taken,
        }
    }
    taken
}

// Adds everything that is shown.
fn add_all<N: Naming>(
    rt: &impl Wait,
    desk: &Desk<N>,
    scene: &mut Scene<N>,
    text: &mut String,
) -> Option<()> {
    add_entries(rt, desk, scene, text)?;
    writeln!(text, "jobs {}", scene.jobs.len()).ok()?;
    add_lines(rt, desk, text)?;
    for (tenant, name, question) in QUESTIONS.iter() {
        text.push_str(name).ok()?;
        add_reply(rt, desk, scene, *tenant, question, text)?;
    }
    Some(())
}

// Adds the number of entries.
fn add_entries<N: Naming>(
    rt: &impl Wait,
    desk: &Desk<N>,
    scene: &mut Scene<N>,
    text: &mut String,
) -> Option<()> {
    match length(rt, desk, scene) {
        Some(length) => writeln!(text, "entries {length}").ok(),
        None => text.push_str("entries unknown\n").ok(),
    }
}

// Adds the values of the lines.
fn add_lines<N: Naming>(rt: &impl Wait, desk: &Desk<N>, text: &mut String) -> Option<()> {
    let values = desk.lines(rt).ok()?;
    writeln!(text, "lines {values:?}").ok()
}

// Adds the reply to a question of this tenant, after a blank.
fn add_reply<N: Naming>(
    rt: &impl Wait,
    desk: &Desk<N>,
    scene: &mut Scene<N>,
    tenant: TenantId,
    question: &str,
    text: &mut String,
) -> Option<()> {
    let alloc = scene.alloc;
    let Some(pass) = scene.passes.get_mut(tenant) else {
        return text.push_str(" no pass\n").ok();
    };
    let command = command_of(alloc, question).ok()?;
    let reply = desk.call(rt, pass, tenant, command).ok()?;
    writeln!(text, " {reply}").ok()
}
