//! Text that its copies share.

ghost use Rattle.std.specs.Prelude.{◌≡◌, ◌<◌, IfOk, IsErr, length};

use std::alloc::{AllocError, Global};
use std::marker::Model;
use std::sync::ArcStr;

/// A text that its copies share. Contracts see it as the list of its bytes.
#[derive(Drop)]
pub struct SharedText {
    // `None` for the empty text.
    text: Option<ArcStr<Global>>,
}

impl Model for SharedText {
    ghost use Rattle.std.specs.Arc.{arc_str_bytes};
    ghost use Rattle.std.specs.Prelude.{List, ℕ, ◌<◌, length, IfSome};
    ghost use Rattle.tenant_lines.specs.SharedTexts.{bytes_in};

    ghost Value = { List ℕ };

    ghost view = { λ t. bytes_in t.text };

    ghost invariant = { λ t. IfSome t.text (λ text. 0 < length (arc_str_bytes text)) };
}

impl SharedText {
    /// A text of these bytes. Takes memory for them, and none if there are no bytes.
    ///
    /// # Errors
    /// Out of memory. Never if there are no bytes.
    pub fn from_str(alloc: Global, text: &str) -> Result<SharedText, AllocError>
        ensures text { IfOk result (λ t. t ≡ text.now) }
        ensures memory { IsErr result → 0 < length text.now }
    {
        if text.is_empty() {
            return Ok(SharedText { text: None });
        }
        Ok(SharedText {
            text: Some(ArcStr::from_str(alloc, text)?),
        })
    }

    /// An equal text, in the same memory. Takes no memory.
    ///
    /// # Errors
    /// A share is refused. Never for an empty text.
    pub fn copy(&self) -> Result<SharedText, AllocError>
        ensures same { IfOk result (λ t. t ≡ self.now) }
        ensures memory { IsErr result → 0 < length self.now }
    {
        Ok(SharedText {
            text: match &self.text {
                None => None,
                Some(text) => Some(text.clone()?),
            },
        })
    }

    /// The text as a string slice.
    pub fn as_str(&self) -> &str
        ensures { result.now ≡ self.now }
    {
        match &self.text {
            None => "",
            Some(text) => text.as_str(),
        }
    }
}
