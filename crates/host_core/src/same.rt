//! Comparison of the tenants of two hosts.

ghost use Rattle.std.specs.Prelude.{◌≡◌, ◌↔◌, map, IsTrue};
ghost use Rattle.host_core.specs.SameHosts.{compared};

use tenant_state::tenants::Tenant;

/// Whether these tenants are the same, in the same order, whatever each has ready for the next instant.
pub(crate) fn same_tenants(ones: &[Tenant], others: &[Tenant]) -> bool
    ensures { IsTrue result ↔ (map compared ones.now ≡ map compared others.now) }
{
    if ones.len() != others.len() {
        return false;
    }
    for i in 0..ones.len() {
        if !ones[i].is_same(&others[i]) {
            return false;
        }
    }
    true
}
