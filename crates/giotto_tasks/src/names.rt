//! Names of ports, tasks, modes and tenants.

ghost use Rattle.std.specs.Prelude.{◌≡◌, ◌≤◌, ◌↔◌, [], List, length, Some, IsSome, IfSome, IsTrue, nat_eq, refl};
ghost use Rattle.std.specs.Int.{w64, to_le_bytes};
ghost use Rattle.std.specs.Ordering.{nat_cmp};
ghost use Rattle.std.specs.Cmp.Lexicographic.{pointwise, slice_cmp, nat_list_eq_equiv, nat_list_cmp_total, texts_po, texts_ties};
ghost use Rattle.std.specs.Cmp.{partial_equiv_from_equiv};
ghost use Rattle.std.specs.Cmp.Rules.{hashing};
ghost use Rattle.std.specs.Hash as fed;
ghost use Rattle.std.proofs.Common.{rules};
ghost use Rattle.giotto_tasks.specs.inner.Words.{padded};

use arrayvec::ArrayString;
use std::cmp::Ordering;
use std::hash::{Hash, Hasher};
use std::marker::Model;

/// A name of at most 32 bytes, as it is in a program's text. It is stored in the value itself and
/// needs no other memory. Contracts see it as the list of its bytes.
#[derive(Drop)]
pub struct Name {
    text: ArrayString<32>,
    // The first 8 bytes of the text, the first one lowest. A shorter text is padded with zeros.
    word: u64,
}

impl Model for Name {
    ghost use Rattle.std.specs.Prelude.{◌≡◌, List, ℕ};
    ghost use Rattle.std.specs.Int.{w64, to_le_bytes};
    ghost use Rattle.giotto_tasks.specs.inner.Words.{padded};

    ghost Value = { List ℕ };

    ghost view = { λ n. n.text.bytes };

    ghost invariant = { λ n. to_le_bytes w64 n.word ≡ padded 8 n.text.bytes };
}

impl Name {
    /// The name with this text, or `None` if the text is longer than 32 bytes. Which bytes a
    /// program's names may have is up to the parser.
    pub fn new(text: &str) -> Option<Name>
        ensures fits { IsSome result ↔ (length text.now ≤ 32) }
        ensures bytes { IfSome result (λ n. n ≡ text.now) }
    {
        let word = first_word(text.as_bytes());
        match ArrayString::from(text) {
            Ok(text) => Some(Name { text, word }),
            Err(_) => None,
        }
    }

    /// An equal name.
    #[inline(always)]
    pub fn copy(&self) -> Name
        ensures { result ≡ self.now }
    {
        Name {
            text: self.text,
            word: self.word,
        }
    }

    /// The number of bytes of the name: at most 32.
    pub fn len(&self) -> usize
        ensures value { result ≡ length self.now }
        ensures fits { length self.now ≤ 32 }
    {
        self.text.len()
    }

    /// Whether the name has no bytes. No name of a program is empty.
    pub fn is_empty(&self) -> bool
        ensures { IsTrue result ↔ (length self.now ≡ 0) }
    {
        self.text.is_empty()
    }

    /// Whether the name equals this one of at most 8 bytes.
    #[inline(always)]
    pub(crate) fn is_short(&self, short: &Name) -> bool
        requires { length short.now ≤ 8 }
        ensures { result ≡ pointwise nat_eq self.now short.now }
    {
        self.word == short.word && self.text.len() == short.text.len()
    }

    /// The name as text: at most 32 bytes.
    pub fn as_str(&self) -> &str
        ensures { result.now ≡ self.now }
    {
        self.text.as_str()
    }
}

impl PartialEq for Name {
    ghost eq = { pointwise nat_eq };

    ghost laws = { partial_equiv_from_equiv nat_list_eq_equiv };

    // Two names of the same length, at most 8 bytes, are equal if their words are.
    #[inline(always)]
    fn eq(&self, other: &Name) -> bool {
        if self.word != other.word || self.text.len() != other.text.len() {
            return false;
        }
        let is_short = self.text.len() <= 8;
        is_short || are_same(self.copy(), other.copy())
    }
}

// Takes copies, so that comparing a short name doesn't force it into memory.
#[inline(never)]
fn are_same(own: Name, others: Name) -> bool
    ensures { result ≡ pointwise nat_eq own others }
{
    own.text == others.text
}

impl Eq for Name {
    ghost laws = { nat_list_eq_equiv };
}

impl PartialOrd for Name {
    ghost partial_cmp = { λ m n. Some (slice_cmp nat_cmp m n) };

    ghost laws = { texts_po };

    fn partial_cmp(&self, other: &Name) -> Option<Ordering> {
        Some(self.cmp(other))
    }
}

impl Ord for Name {
    ghost cmp = { slice_cmp nat_cmp };

    ghost total = { nat_list_cmp_total };

    ghost matches_partial_cmp = { λ m n. refl };

    ghost matches_eq = { λ m n. texts_ties m n };

    fn cmp(&self, other: &Name) -> Ordering {
        self.text.cmp(&other.text)
    }
}

impl Hash for Name {
    ghost hash_input = { fed.str };

    ghost respects_eq = { Prim.search (hashing, rules) };

    fn hash<H: Hasher>(&self, state: &mut H) {
        self.text.hash(state);
    }
}

impl Default for Name {
    ghost is_default = { λ n. n ≡ [] };

    fn default() -> Name {
        Name {
            text: ArrayString::new(),
            word: 0,
        }
    }
}

// The word of a name with these bytes.
fn first_word(bytes: &[u8]) -> u64
    ensures { to_le_bytes w64 result ≡ padded 8 bytes.now }
{
    let count = bytes.len().min(8);
    let mut first = [0; 8];
    first[..count].copy_from_slice(&bytes[..count]);
    u64::from_le_bytes(first)
}
