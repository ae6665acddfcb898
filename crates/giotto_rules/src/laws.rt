//! Laws of the rules: what holds for well-formed programs, whichever code checks them.
//!
//! The functions do nothing: each contract is a law.

ghost use Rattle.std.specs.Prelude.{◌≡◌, ◌↔◌, None};
ghost use Rattle.giotto_text.specs.Program.{GiottoProgram};
ghost use Rattle.giotto_rules.specs.cited.KeepsRules.{KeepsRules};
ghost use Rattle.giotto_rules.specs.Rules.{first_broken_rule};

/// A program breaks no rule exactly if it keeps each of them.
pub fn rules_kept()
    ensures { (p : GiottoProgram) → (first_broken_rule p ≡ None) ↔ KeepsRules p }
{}
