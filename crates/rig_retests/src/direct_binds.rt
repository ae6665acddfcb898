//! The binds of a script that count, each with the first tick at which it does.

ghost use Rattle.std.specs.Prelude.{◌<◌, length};

use host_core::hosts::Host;
use rig_model::config::TenantId;
use std::alloc::{AllocError, Global};
use tenant_sources::tables::Link;

/// A bind of a tenant. The tick of its link is the first just before which it existed.
#[derive(Drop)]
pub struct DirectBind {
    pub tenant: TenantId,
    pub link: Link,
}

/// The binds that existed just before an instant, in the order of their first ticks. Those of one tick are in the order of the roster, and of
/// their tenant's rows.
#[derive(Drop)]
pub struct DirectBinds {
    binds: Vec<DirectBind>,
}

impl DirectBinds {
    /// Creates the binds of a script without instants.
    pub fn new(alloc: Global) -> DirectBinds {
        DirectBinds {
            binds: Vec::new(alloc),
        }
    }

    /// The binds.
    pub fn as_slice(&self) -> &[DirectBind] {
        self.binds.as_slice()
    }

    /// Adds the binds of a host just after an instant, which are those just before it. One that is known already stays as it is.
    ///
    /// # Errors
    /// Out of memory.
    pub fn add_instant(&mut self, host: &Host, tick: u64) -> Result<(), AllocError> {
        for tenant in 0..host.config().tenants().len() {
            self.add_of(host, tenant, tick)?;
        }
        Ok(())
    }

    // Adds the binds of a tenant.
    fn add_of(&mut self, host: &Host, tenant: TenantId, tick: u64) -> Result<(), AllocError>
        requires { tenant < length host.now.config.tenants }
    {
        for i in 0..host.bind_count(tenant) {
            if let Some((sensor, supplier, actuator)) = host.bind_at(tenant, i) {
                let link = Link {
                    tick,
                    sensor: sensor.copy(),
                    supplier,
                    actuator: actuator.copy(),
                };
                self.add(DirectBind { tenant, link })?;
            }
        }
        Ok(())
    }

    // Adds a bind, unless it is known already.
    fn add(&mut self, bind: DirectBind) -> Result<(), AllocError> {
        if !self.binds.iter().any(|it| is_same(it, &bind)) {
            self.binds.push(bind)?;
        }
        Ok(())
    }
}

// Whether two binds are the same, whatever their ticks.
fn is_same(bind: &DirectBind, other: &DirectBind) -> bool {
    bind.tenant == other.tenant
        && bind.link.supplier == other.link.supplier
        && bind.link.sensor == other.link.sensor
        && bind.link.actuator == other.link.actuator
}
