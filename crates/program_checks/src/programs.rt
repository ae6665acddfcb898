//! Reports on a program that is checked against a tenant's budgets.

ghost use Rattle.std.specs.Prelude.{◌≡◌, IfOk, Ok, length, string_bytes};
ghost use Rattle.giotto_reports.specs.Comments.{one_line};
ghost use Rattle.rig_model.specs.rules.Rules.{first_broken_rule};
ghost use Rattle.rig_model.specs.text.Parsing.{parsed};
ghost use Rattle.rig_model.specs.Admission.{program_of};
ghost use Rattle.program_checks.specs.Programs.{IsWrittenFor, TellsFor, bytes_wanted};

use crate::budgets::{Held, over_budget, text_of_budgets};
use giotto_check::Checked;
use giotto_read::print;
use giotto_reports::files::one_line;
use giotto_reports::{Examined, Report, Wish, examine, shown, written};
use rig_model::config::TenantConfig;
use std::alloc::{AllocError, Global};

// A program's file.
#[derive(Clone, Copy)]
struct File<'a> {
    name: &'a str,
    source: &'a str,
    // Its text in one line.
    text: &'a str,
}

/// The report on a program's file with this name and this text, which a tenant is to load.
///
/// If the wish is the line of a script or the canonical text, the program's bytes are those of the canonical text. Otherwise they
/// are those of the file, because these are sent if the file itself is sent.
///
/// # Errors
/// Out of memory.
pub fn check_program(
    alloc: Global,
    file: &str,
    source: &str,
    wish: Wish,
    tenant: &TenantConfig,
) -> Result<Report, AllocError>
    ensures { IfOk result (λ report. TellsFor tenant.now file.now source.now wish.entry report) }
{
    let text = one_line(alloc, source)?;
    match examine(alloc, text.as_str(), source)? {
        Examined::Good(checked) => {
            let file = File {
                name: file,
                source,
                text: text.as_str(),
            };
            hold(alloc, &file, &checked, wish, tenant)
        }
        Examined::Faulty(findings) => Ok(Report {
            is_good: false,
            text: shown(alloc, file, source, &findings)?,
        }),
    }
}

// The report on a well-formed program, the one of this file.
fn hold(
    alloc: Global,
    file: &File,
    checked: &Checked,
    wish: Wish,
    tenant: &TenantConfig,
) -> Result<Report, AllocError>
    requires line { file.now.text.now ≡ one_line file.now.source.now }
    requires program { program_of file.now.text.now ≡ Ok checked.now }
    ensures { IfOk result (λ report. TellsFor tenant.now file.now.name.now file.now.source.now wish.entry report) }
{
    let held = Held {
        tenant,
        checked,
        bytes: bytes_wanted(alloc, checked, wish, file.text)?,
    };
    match over_budget(alloc, &held, file.text)? {
        Some(over) => Ok(Report {
            is_good: false,
            text: shown(alloc, file.name, file.source, &over.findings)?,
        }),
        None => Ok(Report {
            is_good: true,
            text: written_of(alloc, &held, wish)?,
        }),
    }
}

// The length in bytes of the text that the host would receive.
fn bytes_wanted(
    alloc: Global,
    checked: &Checked,
    wish: Wish,
    text: &str,
) -> Result<usize, AllocError>
    ensures { IfOk result (λ bytes. bytes ≡ bytes_wanted wish.entry text.now checked.now) }
{
    match wish {
        Wish::Load(_) | Wish::Print => Ok(print(alloc, checked.program())?.len()),
        Wish::Summary | Wish::Pretty => Ok(text.len()),
    }
}

// The wished text about a program that exceeds no budget. After a summary, the budgets are listed next to the program's numbers.
fn written_of(alloc: Global, held: &Held, wish: Wish) -> Result<String, AllocError>
    ensures { IfOk result (λ text. IsWrittenFor held.now.tenant.now held.now.bytes wish.entry held.now.checked.now (string_bytes text)) }
{
    match wish {
        Wish::Summary => {
            let mut text = written(alloc, held.checked, wish)?;
            text.push_str(text_of_budgets(alloc, held)?.as_str())?;
            Ok(text)
        }
        Wish::Load(_) | Wish::Print | Wish::Pretty => written(alloc, held.checked, wish),
    }
}
