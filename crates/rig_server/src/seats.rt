//! What gives seats, such as a desk.

ghost use Rattle.std.specs.Prelude.{⊤, IfErr};
ghost use Rattle.locked_book.specs.declared.faults.PassFault.{PassFault};

use locked_book::desks::Desk;
use locked_book::faults::PassFault;
use locked_book::naming::Naming;
use locked_book::passes::Pass;
use rig_sessions::calls::Calls;
use std::sync::Wait;

/// Gives seats, and takes the calls of those that have one.
pub trait Seats<N: Naming>: Calls<N> {
    // the reasons for which it gives none, if they are known
    ghost refuses: { Self → PassFault → Type 0 } = { λ _ _. ⊤ };

    /// Returns the pass of a seat that was not given before.
    ///
    /// # Errors
    /// Those of a desk.
    fn seat<R: Wait>(&self, rt: &R) -> Result<Pass<N>, PassFault>
        ensures fault { IfErr result (λ fault. refuses self.now fault) };
}

impl<N: Naming> Seats<N> for Desk<N> {
    fn seat<R: Wait>(&self, rt: &R) -> Result<Pass<N>, PassFault> {
        self.pass(rt)
    }
}
