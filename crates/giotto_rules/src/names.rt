//! Lists of names and numbers, as the rules compare them.

ghost use Rattle.std.specs.Prelude.{◌≡◌, ◌++◌};
ghost use Rattle.std.specs.Result.{OnOk};
ghost use Rattle.giotto_rules.specs.Names as spec;

use giotto_tasks::index::Index;
use giotto_tasks::names::Name;
use std::alloc::AllocError;

/// Whether all of `some` are among these names.
pub(crate) fn are_among(names: &Index, some: &[Name]) -> bool
    ensures { result ≡ spec.are_among names.now some.now }
{
    some.iter().all(|name| names.contains(name))
}

/// Whether none of `some` is among these names.
pub(crate) fn share_none(names: &Index, some: &[Name]) -> bool
    ensures { result ≡ spec.share_none names.now some.now }
{
    for name in some {
        if names.contains(name) {
            return false;
        }
    }
    true
}

/// Whether no number occurs twice.
pub(crate) fn all_different_numbers(numbers: &[u64]) -> bool
    ensures { result ≡ spec.all_different_numbers numbers.now }
{
    for i in 0..numbers.len() {
        if numbers[i + 1..].contains(&numbers[i]) {
            return false;
        }
    }
    true
}

/// Appends copies of these names.
pub(crate) fn push_names(names: &mut Vec<Name>, more: &[Name]) -> Result<(), AllocError>
    ensures { OnOk result (names.new.items ≡ names.old.items ++ more.now) }
{
    for name in more {
        names.push(name.copy())?;
    }
    Ok(())
}
