//! Laws about configurations. Each is a function with an empty body, whose contract is the law.

ghost use Rattle.std.specs.Prelude.{◌≡◌, ℕ, Ok, IsTrue};
ghost use Rattle.rig_config.specs.BuiltIn.{built_in_config, built_in_text};
ghost use Rattle.rig_config.specs.Ranges.{IsConfig};
ghost use Rattle.rig_config.specs.Reading.{config_of};
ghost use Rattle.rig_config.specs.Roster.{Rig, budgets_at, may_use};

/// The text of the built-in configuration is read as the built-in configuration.
pub fn built_in_is_read()
    ensures { config_of built_in_text ≡ Ok built_in_config }
{}

/// At most one tenant may drive a line.
pub fn one_driver()
    ensures { (rig : Rig) (k s t : ℕ) → IsConfig rig
        → IsTrue (may_use (budgets_at rig s).writes k) → IsTrue (may_use (budgets_at rig t).writes k) → s ≡ t }
{}
