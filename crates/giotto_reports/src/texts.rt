//! Programs as texts for files and for scripts.
//!
//! [`pretty`] lays a program out over lines, and [`load_line`] returns the line of a script that loads it:
//!
//! ```text
//! task T(i) output o {
//!     o := i + 1;
//! }
//! ```
//!
//! The texts read as the same program again. `pretty` reads back the text that it laid out before it returns it, so its layout
//! can be changed without a proof.

ghost use Rattle.std.specs.Prelude.{◌≡◌, ◌++◌, IfOk, Ok, codes, string_bytes, true};
ghost use Rattle.giotto_breaks.specs.text.Canonical.{canonical_of};
ghost use Rattle.giotto_breaks.specs.text.Parsing.{parsed};

use crate::layout::laid_out;
use giotto_read::{Program, ReadFault, print, read};
use giotto_text::lexer;
use std::alloc::{AllocError, Global};

/// The line of a script with which the tenant of this name loads the program: the name, ` load ` and the canonical text.
///
/// # Errors
/// Out of memory.
pub fn load_line(alloc: Global, tenant: &str, program: &Program) -> Result<String, AllocError>
    ensures { IfOk result (λ line. string_bytes line ≡ tenant.now ++ codes " load " ++ canonical_of program.now) }
{
    let text = print(alloc, program)?;
    let mut line = String::from_str(alloc, tenant)?;
    line.push_str(" load ")?;
    line.push_str(text.as_str())?;
    Ok(line)
}

/// The program laid out over many lines, as a text that reads as the same program again. Each declaration, each statement of a
/// body and each line of a mode is on a separate line, indented by four blanks for each block that it is in. Each line ends with
/// an LF.
///
/// # Errors
/// Out of memory.
pub fn pretty(alloc: Global, program: &Program) -> Result<String, AllocError>
    ensures { IfOk result (λ text. parsed (string_bytes text) ≡ Ok program.now) }
{
    let canonical = print(alloc, program)?;
    let text = laid_out_text(alloc, canonical.as_str())?;
    if reads_as(alloc, text.as_str(), canonical.as_str())? {
        return Ok(text);
    }
    Ok(canonical)
}

fn laid_out_text(alloc: Global, canonical: &str) -> Result<String, AllocError> {
    match lexer::tokens(alloc, canonical.as_bytes()) {
        Ok(tokens) => laid_out(alloc, &tokens),
        Err(_) => Err(AllocError),
    }
}

// Whether the text reads as a program of this canonical text.
fn reads_as(alloc: Global, text: &str, canonical: &str) -> Result<bool, AllocError>
    ensures { IfOk result (λ same. same ≡ true → parsed text.now ≡ parsed canonical.now) }
{
    match read(alloc, text) {
        Ok(program) => {
            let again = print(alloc, &program)?;
            Ok(again.as_bytes() == canonical.as_bytes())
        }
        Err(ReadFault::Memory) => Err(AllocError),
        Err(_) => Ok(false),
    }
}
