//! Numbers as text.

ghost use Rattle.std.specs.Prelude.{◌≡◌, IfOk, string_bytes};
ghost use Rattle.program_checks.specs.Numbers.{text_of_numbers};

use std::alloc::{AllocError, Global};

/// Numbers as text, as in `0, 2`. The text is `none` if there are no numbers.
///
/// # Errors
/// Out of memory.
pub fn text_of_numbers(alloc: Global, numbers: &[usize]) -> Result<String, AllocError>
    ensures { IfOk result (λ text. string_bytes text ≡ text_of_numbers numbers.now) }
{
    let Some((first, others)) = numbers.split_first() else {
        return String::from_str(alloc, "none");
    };
    let mut text = format!(in alloc; "{first}")?;
    for number in others {
        let one = format!(in alloc; ", {number}")?;
        text.push_str(one.as_str())?;
    }
    Ok(text)
}
