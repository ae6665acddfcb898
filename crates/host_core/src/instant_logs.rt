//! What logs the instants of a host.

use std::alloc::AllocError;

/// Logs the instants of a host, and keeps space for the completions of their jobs.
pub trait InstantLog {
    ghost use Rattle.std.specs.Prelude.{List, ℤ, ℕ, OnErr, OnOk};

    // whether an instant with this frame was logged, with space for this many completions
    ghost has_added: { Self → Self → List ℤ → ℕ → Type 0 };

    // what may have changed if memory was refused
    ghost was_refused: { Self → Self → Type 0 };

    /// Logs an instant with this frame, which runs next. Reserves space for this many completions.
    ///
    /// # Errors
    /// Out of memory. The instant doesn't run then.
    fn add_instant(&mut self, frame: &[i64], completions: usize) -> Result<(), AllocError>
        ensures added { OnOk result (has_added self.old self.new frame.now completions) }
        ensures refused { OnErr result (was_refused self.old self.new) };
}

/// No log.
impl InstantLog for () {
    ghost use Rattle.std.specs.Prelude.{⊤};

    ghost has_added = { λ _ _ _ _. ⊤ };

    ghost was_refused = { λ _ _. ⊥ };

    fn add_instant(&mut self, _frame: &[i64], _completions: usize) -> Result<(), AllocError> {
        Ok(())
    }
}
