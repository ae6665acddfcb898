//! What the commands about grants do.

ghost use Rattle.std.specs.Prelude.{◌≡◌, ◌≢◌, false, Err, IfErr, IfOk, OnErr, OnOk, unwrap_or};
ghost use Rattle.rig_model.specs.grants.Grants.{offered};
ghost use Rattle.rig_model.specs.declared.grants.faults.GrantFault.{GrantFault};
ghost use Rattle.rig_model.specs.GrantCommands.{grants_commanded, refusal_of_row};
ghost use Rattle.tenant_exchange.specs.Memory.{takes_memory};
ghost use Rattle.rig_model.specs.declared.lines.replies.Refusal.{Refusal};
ghost use Rattle.rig_model.specs.declared.lines.replies.Reply.{Reply};

use giotto_tasks::names::Name;
use rig_model::config::intervals::Bounds;
use rig_model::grants::faults::GrantFault;
use rig_model::grants::grants::Grants;
use rig_model::lines::grant_lines::GrantCommand;
use rig_model::lines::replies::{Budget, Refusal, Reply};

/// Carries out a command about grants, on the rows of the tenant that gives it. A refusal changes nothing, also one for lack of
/// memory. Memory is only taken by `offer` and `bind` if the row may be made, and by `rows` if there is a row. No other command
/// is refused for lack of memory. So if the definitions refuse a command, the reply is exactly that refusal.
pub fn carry_out(grants: &mut Grants, command: GrantCommand) -> Reply
    ensures memory { result ≡ Reply.Refused Refusal.Memory → grants.new ≡ grants.old }
    ensures room { takes_memory command grants.old ≡ false → result ≢ Reply.Refused Refusal.Memory }
    ensures owner { grants.new.owner ≡ grants.old.owner }
    ensures reply { result ≢ Reply.Refused Refusal.Memory → result ≡ (grants_commanded command grants.old).reply }
    ensures rows { result ≢ Reply.Refused Refusal.Memory → grants.new ≡ (grants_commanded command grants.old).rows }
{
    match command {
        GrantCommand::Offer {
            actuator,
            tenant,
            bounds,
        } => answer(
            offer(grants, actuator, tenant, bounds),
            Reply::Offered,
            Budget::Offers,
        ),
        GrantCommand::Unoffer { actuator, tenant } => answer(
            grants.unoffer(&actuator, &tenant),
            Reply::Unoffered,
            Budget::Offers,
        ),
        GrantCommand::Bind {
            sensor,
            tenant,
            actuator,
        } => answer(
            grants.bind(sensor, tenant, actuator),
            Reply::Bound,
            Budget::Binds,
        ),
        GrantCommand::Unbind { sensor } => answer(
            grants.unbind(&sensor),
            Reply::Unbound,
            Budget::Binds,
        ),
        GrantCommand::Rows => match grants.list() {
            Ok(rows) => Reply::Rows(rows),
            Err(_) => Reply::Refused(Refusal::Memory),
        },
    }
}

// Offers an actuator to a tenant, within these bounds if there are any, else within those of the owner.
fn offer(
    grants: &mut Grants,
    actuator: Name,
    tenant: Name,
    bounds: Option<Bounds>,
) -> Result<(), GrantFault>
    ensures refused { IfErr (offered grants.old.owner grants.old.offers actuator tenant (unwrap_or bounds grants.old.owner.bounds)) (λ fault. result ≡ Err fault) }
    ensures offered { IfOk (offered grants.old.owner grants.old.offers actuator tenant (unwrap_or bounds grants.old.owner.bounds)) (λ os. OnOk result (grants.new ≡ record grants.old { offers = os })) }
    ensures memory { IfOk (offered grants.old.owner grants.old.offers actuator tenant (unwrap_or bounds grants.old.owner.bounds)) (λ os. IfErr result (λ fault. fault ≡ GrantFault.Memory)) }
    ensures same { OnErr result (grants.new ≡ grants.old) }
{
    let bounds = match bounds {
        Some(bounds) => bounds,
        None => grants.own_bounds().copy(),
    };
    grants.offer(actuator, tenant, bounds.low(), bounds.high())
}

// The reply to a change of the rows: that it is done, or why it isn't. `budget` is the budget for such rows.
fn answer(done: Result<(), GrantFault>, reply: Reply, budget: Budget) -> Reply
    ensures done { IfOk done (λ u. result ≡ reply) }
    ensures refused { IfErr done (λ fault. result ≡ Reply.Refused (refusal_of_row budget fault)) }
{
    match done {
        Ok(()) => reply,
        Err(fault) => Reply::Refused(refusal_of(budget, fault)),
    }
}

fn refusal_of(budget: Budget, fault: GrantFault) -> Refusal
    ensures { result ≡ refusal_of_row budget fault }
{
    match fault {
        GrantFault::NoTenant => Refusal::NoTenant,
        GrantFault::Own => Refusal::Own,
        GrantFault::Twice => Refusal::Twice,
        GrantFault::NotThere => Refusal::NotThere,
        GrantFault::Budget => Refusal::OverBudget(budget),
        GrantFault::Memory => Refusal::Memory,
    }
}
