//! How a tenant's commands are written.

ghost use Rattle.std.specs.Prelude.{◌≡◌};
ghost use Rattle.std.specs.Option.{option_map};
ghost use Rattle.script_checks.specs.Commands.{forms_of};

/// The forms of the commands that begin with this word, as one text. `None` if no command does, or only `load` and `replace`, which take any
/// text.
pub fn forms_of(word: &str) -> Option<&'static str>
    ensures { option_map (λ forms. forms.now) result ≡ forms_of word.now }
{
    match word {
        "start" | "stop" | "trace" | "rows" => Some("nothing comes after this word"),
        "show" => Some("`show mode`, `show all`, `show port NAME` or `show port TASK.NAME`"),
        "offer" => Some(
            "`offer NAME to TENANT` or `offer NAME to TENANT from LO to HI`, LO not above HI",
        ),
        "unoffer" => Some("`unoffer NAME to TENANT`"),
        "bind" => Some("`bind NAME from TENANT.NAME`"),
        "unbind" => Some("`unbind NAME`"),
        _ => None,
    }
}
