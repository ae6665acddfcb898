//! Two scripts compared.

ghost use Rattle.std.specs.Prelude.{◌≡◌, IfOk, length, string_bytes};
ghost use Rattle.rig_model.specs.Base.{Setting};
ghost use Rattle.rig_model.specs.Plays.{IsSettingOf};
ghost use Rattle.rig_retests.specs.Named.{names_of};
ghost use Rattle.run_comparisons.specs.Changes.{changes_of, unnamed_tenants};
ghost use Rattle.run_comparisons.specs.Comparisons.{AreUnnamed, HasCourse, IsPrinted};
ghost use Rattle.run_comparisons.specs.Texts.{text_of_comparison};

use crate::answers::run_answers;
use crate::changes::{Scope, changed_tenants, changes_of, named_tenants, unnamed_tenants};
use crate::texts::{Run, text_of_driven, text_of_end, text_of_operator, text_of_tenants};
use plant_couplings::couplings::Plant;
use rig_model::config::{Config, TenantId};
use rig_retests::facts::Facts;
use rig_retests::laws::reached_are_named;
use rig_retests::reaches::ReachTable;
use rig_retests::tables::retests_of;
use rig_script::courses::Course;
use rig_script::faults::ScriptFault;
use std::alloc::{AllocError, Global};

/// A script: its path for messages, and its bytes.
#[derive(Clone, Copy)]
pub struct Script<'a> {
    pub path: &'a str,
    pub bytes: &'a [u8],
}

/// What differs between two runs.
#[derive(Drop)]
pub struct RunComparison {
    /// A row for each tenant that is compared, one for the driven lines, one for the operator's lines, and who changed.
    pub text: String,
    /// The tenants that are compared and have other answers though no retest names them.
    pub unnamed: Vec<TenantId>,
}

/// What differs between the runs of two scripts, and how the scripts went.
#[derive(Drop)]
pub struct ScriptComparison {
    pub runs: RunComparison,
    pub old: Course,
    pub new: Course,
}

/// Answers both scripts as `rig_script::script` does, each from a new host on, and returns what differs.
///
/// Two values, of a reply or of a driven line, that differ by at most `tolerance` count as the same. It may be any number; with 0 only the same
/// bytes count.
///
/// A retest names the tenants whose lines are other ones in the new script, and each whom a change of one can reach there, through binds and the plant.
/// If the plant isn't declared, it names those that have one as a source.
///
/// # Errors
/// As `script`; `Memory` also if an allocation for the comparison fails.
pub fn compare_scripts(
    alloc: Global,
    config: &Config,
    plant: &Plant,
    scope: Scope,
    tolerance: u64,
    old: &Script<'_>,
    new: &Script<'_>,
) -> Result<ScriptComparison, ScriptFault>
    ensures text { IfOk result (λ compared. (setting : Setting) → IsSettingOf config.now setting
        → IsPrinted setting plant.now scope tolerance old.now.bytes.now new.now.bytes.now old.now.path.now new.now.path.now (string_bytes compared.runs.text)) }
    ensures unnamed { IfOk result (λ compared. (setting : Setting) → IsSettingOf config.now setting
        → AreUnnamed setting plant.now scope tolerance old.now.bytes.now new.now.bytes.now compared.runs.unnamed.items) }
    ensures courses { IfOk result (λ compared. (setting : Setting) → IsSettingOf config.now setting
        → HasCourse config.now old.now.bytes.now compared.old × HasCourse config.now new.now.bytes.now compared.new) }
{
    let mut reader = old.bytes;
    let before = run_answers(alloc, &mut reader, config)?;
    let mut reader = new.bytes;
    let after = run_answers(alloc, &mut reader, config)?;
    let mut reader = new.bytes;
    let retests = retests_of(alloc, &mut reader, config)?;
    let reach = ReachTable::new(alloc, config, plant, &retests)?;
    // For the proof: whom these name.
    reached_are_named();
    let facts = Facts {
        config,
        plant,
        retests: &retests,
        reach: &reach,
    };
    let old_run = Run {
        path: old.path,
        answers: before.answers.as_slice(),
    };
    let new_run = Run {
        path: new.path,
        answers: after.answers.as_slice(),
    };
    Ok(ScriptComparison {
        runs: compare_runs(alloc, config, scope, tolerance, &old_run, &new_run, &facts)?,
        old: before.course,
        new: after.course,
    })
}

// What differs between two runs. The facts are those of the new one's script.
fn compare_runs(
    alloc: Global,
    config: &Config,
    scope: Scope,
    tolerance: u64,
    old: &Run<'_>,
    new: &Run<'_>,
    facts: &Facts<'_>,
) -> Result<RunComparison, AllocError>
    ensures text { IfOk result (λ compared. string_bytes compared.text ≡ text_of_comparison tolerance config.now old.now.path.now new.now.path.now old.now.answers.now new.now.answers.now scope (names_of facts.now)) }
    ensures unnamed { IfOk result (λ compared. compared.unnamed.items ≡ unnamed_tenants (names_of facts.now) (changes_of tolerance old.now.answers.now new.now.answers.now (length config.now.tenants)) scope) }
{
    let changes = changes_of(alloc, config, tolerance, old.answers, new.answers)?;
    let changes = changes.as_slice();
    let changed = changed_tenants(alloc, changes)?;
    let named = named_tenants(alloc, changes, facts)?;
    let unnamed = unnamed_tenants(alloc, changes, facts, scope)?;
    let tenants = text_of_tenants(alloc, config, tolerance, old, new, scope)?;
    let driven = text_of_driven(alloc, tolerance, old, new, scope)?;
    let operator = text_of_operator(alloc, old, new)?;
    let (changed, named) = (changed.as_slice(), named.as_slice());
    let end = text_of_end(alloc, config, changed, named, unnamed.as_slice())?;
    let text = format!(in alloc; "{tenants}{driven}{operator}{end}")?;
    Ok(RunComparison { text, unnamed })
}
