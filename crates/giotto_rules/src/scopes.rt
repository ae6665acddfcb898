//! The names that an expression may read.

ghost use Rattle.std.specs.Prelude.{◌≡◌, ◌++◌};
ghost use Rattle.giotto_tasks.specs.Names.{is_among};

use giotto_tasks::index::Index;
use giotto_tasks::names::Name;
use std::marker::Model;

// The names of one list, or of two lists in a row. Contracts see it as the list of all of them.
#[derive(Drop)]
pub(crate) struct Scope<'a> {
    first: &'a Index,
    second: Option<&'a Index>,
}

impl<'a> Model for Scope<'a> {
    ghost use Rattle.std.specs.Prelude.{List};
    ghost use Rattle.giotto_tasks.specs.declared.names.Name.{Name};
    ghost use Rattle.std.specs.Option.{option_map};
    ghost use Rattle.giotto_rules.specs.inner.Scopes.{joined};

    ghost Value = { List Name };

    ghost view = { λ s. joined s.first.now (option_map (λ i. i.now) s.second) };
}

impl<'a> Scope<'a> {
    /// The names of one list.
    pub(crate) fn new(names: &'a Index) -> Scope<'a>
        ensures { result ≡ names.now }
    {
        Scope {
            first: names,
            second: None,
        }
    }

    /// The names of two lists in a row.
    pub(crate) fn joined(first: &'a Index, second: &'a Index) -> Scope<'a>
        ensures { result ≡ first.now ++ second.now }
    {
        Scope {
            first,
            second: Some(second),
        }
    }

    /// Whether the name is one of them.
    #[tactic(auto, using(crate::proofs::ScopeLemmas::is_among_joined))]
    pub(crate) fn contains(&self, name: &Name) -> bool
        ensures { result ≡ is_among self.now name.now }
    {
        match self.second {
            Some(names) => self.first.contains(name) || names.contains(name),
            None => self.first.contains(name),
        }
    }
}
