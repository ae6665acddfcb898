//! The trait that takes the calls of a session.

ghost use Rattle.locked_book.specs.Books.{AreCalled};
ghost use Rattle.std.specs.Prelude.{◌≡◌, [], ◌∷◌, ◌++◌, IfOk, OnErr};

use locked_book::desks::Desk;
use locked_book::faults::DeskFault;
use locked_book::naming::Naming;
use locked_book::passes::Pass;
use rig_model::config::TenantId;
use rig_model::lines::commands::Command;
use rig_model::lines::replies::Reply;
use std::alloc::Global;
use std::sync::Wait;

/// Takes the calls of a session.
pub trait Calls<N: Naming> {
    /// A call of a pass: a tenant's command, and its reply. The call is then the last on the pass.
    ///
    /// # Errors
    /// Those of a desk. The pass is unchanged then.
    fn call<R: Wait>(
        &self,
        rt: &R,
        pass: &mut Pass<N>,
        tenant: TenantId,
        command: Command,
    ) -> Result<Reply, DeskFault>
        ensures added { IfOk result (λ r. pass.new.calls ≡ pass.old.calls ++ record { tenant = tenant; command = command; reply = r } ∷ []) }
        ensures seat { pass.new.seat ≡ pass.old.seat }
        ensures refused { OnErr result (pass.new ≡ pass.old) };

    /// Makes calls of a pass, one after the other: these commands of a tenant, up to the first that is refused. Each call is then on the
    /// pass, with its reply.
    ///
    /// # Errors
    /// Those of `call`, for the first command that is refused.
    fn call_all<R: Wait>(
        &self,
        rt: &R,
        alloc: Global,
        pass: &mut Pass<N>,
        tenant: TenantId,
        commands: &[Command],
    ) -> Result<(), DeskFault>
        ensures called { AreCalled tenant commands.now result pass.old pass.new }
        ensures seat { pass.new.seat ≡ pass.old.seat }
    {
        for command in commands {
            let Ok(command) = command.copy() else {
                return Err(DeskFault::Memory);
            };
            let _reply = self.call(rt, pass, tenant, command)?;
        }
        Ok(())
    }
}

impl<N: Naming> Calls<N> for Desk<N> {
    fn call<R: Wait>(
        &self,
        rt: &R,
        pass: &mut Pass<N>,
        tenant: TenantId,
        command: Command,
    ) -> Result<Reply, DeskFault> {
        Desk::call(self, rt, pass, tenant, command)
    }

    fn call_all<R: Wait>(
        &self,
        rt: &R,
        _alloc: Global,
        pass: &mut Pass<N>,
        tenant: TenantId,
        commands: &[Command],
    ) -> Result<(), DeskFault> {
        Desk::call_all(self, rt, pass, tenant, commands)
    }
}
