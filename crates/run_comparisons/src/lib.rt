//! Two scripts compared: whose answers differ between their runs, and whose do though no retest names them.
//!
//! ```text
//! let old = Script { path: "old.script", bytes: old_bytes };
//! let new = Script { path: "new.script", bytes: new_bytes };
//! let comparison = compare_scripts(alloc, &config, &plant, Scope::Rig, 0, &old, &new)?;
//! ```
//!
//! Both run on a new host of the same configuration. [`answers`] has the answers of a run: the replies to the lines of tenants, and the driven
//! lines of the rig after each tick. [`alike`] says which replies count as the same, [`differences`] compares two lists of answers place by
//! place, [`changes`] says what changed for each tenant and whom a retest names, and [`texts`] prints it.
#![tactic(auto)]

mod alike;
mod answers;
mod changes;
mod comparisons;
mod differences;
mod texts;

pub use changes::Scope;
pub use comparisons::{RunComparison, Script, ScriptComparison, compare_scripts};
