//! The entries of a log.

ghost use Rattle.std.specs.Arc.{arc_value};
ghost use Rattle.std.specs.Box.{box_value};
ghost use Rattle.std.specs.Prelude.{◌≡◌, IfOk};

use crate::frames::copy_of_frame;
use crate::jobs::JobId;
use giotto_tasks::lists::List;
use std::alloc::{AllocError, Global};
use std::marker::Model;
use std::sync::Arc;
use tenant_lines::commands::Command;
use tenant_lines::config::TenantId;
use tenant_lines::replies::Reply;

/// The number of a seat, from 0.
pub type SeatId = usize;

/// A call: a tenant's command, with its reply.
#[derive(Drop)]
pub struct Call {
    pub tenant: TenantId,
    pub command: Command,
    pub reply: Reply,
}

// Where a call is kept: in a shared place, or in a private one.
#[derive(Drop)]
enum Place {
    Shared(Arc<Call, Global>),
    Own(Box<Call>),
}

/// A call as a log or a pass keeps it: in private memory, or in memory shared with another. Moving it moves no more than an address.
/// Contracts see it as the call.
#[derive(Drop)]
pub struct KeptCall {
    place: Place,
}

impl Model for KeptCall {
    ghost use Rattle.rig_model.specs.declared.logged.Call.{Call};
    ghost use Rattle.rig_model.specs.KeptCalls.{call_in};

    ghost Value = { Call };

    ghost view = { λ k. call_in k.place };
}

/// An entry of a log.
#[derive(Drop)]
pub enum Logged {
    /// A call of a seat.
    Call(SeatId, KeptCall),
    /// An instant of all tenants, with the input value of each line.
    Tick(List<i64>),
    /// The completion of a job, if it counted.
    Done(JobId),
}

impl Call {
    /// An equal call, in separate memory.
    ///
    /// # Errors
    /// Out of memory.
    pub fn copy(&self, alloc: Global) -> Result<Call, AllocError>
        ensures { IfOk result (λ call. call ≡ self.now) }
    {
        Ok(Call {
            tenant: self.tenant,
            command: self.command.copy()?,
            reply: self.reply.copy(alloc)?,
        })
    }
}

impl KeptCall {
    /// Keeps the call in this private place. Allocates nothing.
    pub fn own(call: Box<Call>) -> KeptCall
        ensures { result ≡ box_value call }
    {
        KeptCall {
            place: Place::Own(call),
        }
    }

    /// The call twice, in one shared place.
    ///
    /// # Errors
    /// Out of memory for the place, or a share of it is refused.
    pub fn twice(alloc: Global, call: Call) -> Result<(KeptCall, KeptCall), AllocError>
        ensures { IfOk result (λ calls. (calls.0 ≡ call) × (calls.1 ≡ call)) }
    {
        let one = Arc::new(alloc, call)?;
        let other = Arc::try_clone(&one)?;
        Ok((KeptCall::shared(one), KeptCall::shared(other)))
    }

    fn shared(call: Arc<Call, Global>) -> KeptCall
        ensures { result ≡ arc_value call }
    {
        KeptCall {
            place: Place::Shared(call),
        }
    }

    /// The call.
    pub fn as_call(&self) -> &Call
        ensures { result.now ≡ self.now }
    {
        match &self.place {
            Place::Shared(call) => call,
            Place::Own(call) => call,
        }
    }

    /// An equal call: in the same place if that is shared, else in separate memory.
    ///
    /// # Errors
    /// Out of memory, or a share is refused.
    pub fn copy(&self, alloc: Global) -> Result<KeptCall, AllocError>
        ensures { IfOk result (λ call. call ≡ self.now) }
    {
        match &self.place {
            Place::Shared(call) => Ok(KeptCall::shared(Arc::try_clone(call)?)),
            Place::Own(call) => {
                let call = call.copy(alloc)?;
                Ok(KeptCall::own(Box::new(alloc, call)?))
            }
        }
    }
}

impl Logged {
    /// An equal entry. A call in a shared place stays in that place; everything else is copied to separate memory.
    ///
    /// # Errors
    /// Out of memory, or a share is refused.
    pub fn copy(&self, alloc: Global) -> Result<Logged, AllocError>
        ensures { IfOk result (λ entry. entry ≡ self.now) }
    {
        Ok(match self {
            Logged::Call(seat, call) => Logged::Call(*seat, call.copy(alloc)?),
            Logged::Tick(frame) => Logged::Tick(copy_of_frame(alloc, frame.as_slice())?),
            Logged::Done(id) => Logged::Done(id.copy()),
        })
    }
}
