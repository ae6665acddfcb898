//! What a caller gets of the reply to its call.

use rig_model::lines::replies::Reply;
use std::alloc::{AllocError, Global};

/// What a caller gets of the reply to its call: a copy, or nothing if it reads the reply from its pass.
pub trait FromReply: Sized {
    ghost use Rattle.std.specs.Prelude.{IfOk, IsErr, IsTrue};
    ghost use Rattle.rig_model.specs.declared.lines.replies.Reply.{Reply};
    ghost use Rattle.rig_model.specs.lines.cited.Copies.{has_list};

    // what it has of a reply
    ghost is_of: { Self → Reply → Type 0 };

    /// What a caller gets of this reply.
    ///
    /// # Errors
    /// Out of memory, only if the reply is a list.
    fn from_reply(alloc: Global, reply: &Reply) -> Result<Self, AllocError>
        ensures of { IfOk result (λ got. is_of got reply.now) }
        ensures memory { IsErr result → IsTrue (has_list reply.now) };
}

impl FromReply for Reply {
    ghost use Rattle.std.specs.Prelude.{◌≡◌};

    ghost is_of = { λ got reply. got ≡ reply };

    fn from_reply(alloc: Global, reply: &Reply) -> Result<Reply, AllocError> {
        reply.copy(alloc)
    }
}

impl FromReply for () {
    ghost use Rattle.std.specs.Prelude.{⊤};

    ghost is_of = { λ got reply. ⊤ };

    fn from_reply(_alloc: Global, _reply: &Reply) -> Result<(), AllocError> {
        Ok(())
    }
}
