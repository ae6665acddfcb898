//! The well-formed program that a text spells.

ghost use Rattle.std.specs.Prelude.{◌≡◌, ◌≢◌, ℕ, Ok, Err, IfOk, IfErr};
ghost use Rattle.giotto_check.specs.declared.CheckFault.{CheckFault};
ghost use Rattle.rig_model.specs.declared.lines.replies.Refusal.{Refusal};
ghost use Rattle.rig_model.specs.Admission.{program_of, refusal_of_text};

use giotto_check::{self, CheckFault, Checked};
use giotto_read::read;
use rig_model::lines::replies::Refusal;
use rig_model::text::faults::ReadFault;
use std::alloc::Global;

/// The well-formed program that a text spells.
///
/// # Errors
/// The first reason in this order. `Syntax`, `TooDeep` or `TooMany`: the text spells no program, as the reader reports. `Rule`: the program
/// breaks a rule, and the first such rule is named. `Memory` at any time, if memory runs out.
pub fn read_program(alloc: Global, text: &str) -> Result<Checked, Refusal>
    ensures read { IfOk result (λ p. program_of text.now ≡ Ok p) }
    ensures refused { IfErr result (λ r. r ≢ Refusal.Memory → program_of text.now ≡ Err r) }
{
    let program = match read(alloc, text) {
        Ok(program) => program,
        Err(fault) => return Err(refusal_of(fault)),
    };
    match giotto_check::check(alloc, program) {
        Ok(checked) => Ok(checked),
        Err((program, fault)) => {
            drop(program);
            Err(refusal_of_check(fault))
        }
    }
}

// The refusal of a text that spells no program, by its fault.
fn refusal_of(fault: ReadFault) -> Refusal
    ensures { result ≡ refusal_of_text fault }
{
    match fault {
        ReadFault::Syntax(offset) => Refusal::Syntax(offset),
        ReadFault::TooDeep => Refusal::TooDeep,
        ReadFault::TooMany => Refusal::TooMany,
        ReadFault::Memory => Refusal::Memory,
    }
}

// The refusal of a program that isn't well-formed, by its fault.
fn refusal_of_check(fault: CheckFault) -> Refusal
    ensures memory { fault ≡ CheckFault.Memory → result ≡ Refusal.Memory }
    ensures rule { (n : ℕ) → fault ≡ CheckFault.Rule n → result ≡ Refusal.Rule n }
{
    match fault {
        CheckFault::Rule(rule) => Refusal::Rule(rule),
        CheckFault::Memory => Refusal::Memory,
    }
}
