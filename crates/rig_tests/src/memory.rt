//! Marks around calls. Between them `scripts/check-calls` refuses requests for memory.
//!
//! Without that script a mark does nothing.

use std::alloc::Global;

/// A mark around a call that may be out of memory: some of its requests are refused. No machine has that many bytes.
pub(crate) const SOME_REFUSED: usize = 1 << 47;

/// A mark around a call that takes no memory: it may make no request.
pub(crate) const NONE_ALLOWED: usize = 1 << 48;

/// Marks that a call begins or ends.
pub(crate) fn mark(alloc: Global, kind: usize) {
    let _never_met = Vec::<u8>::with_capacity(alloc, kind);
}

/// The result of a call, some of whose requests may be refused; that of `again` if it is out of memory.
macro_rules! with_refusals {
    ($alloc:expr, $call:expr, $memory:pat => $again:expr) => {{
        $crate::memory::mark($alloc, $crate::memory::SOME_REFUSED);
        let made = $call;
        $crate::memory::mark($alloc, $crate::memory::SOME_REFUSED);
        match made {
            $memory => $again,
            other => other,
        }
    }};
}

/// The result of a call that takes no memory.
macro_rules! without_memory {
    ($alloc:expr, $call:expr) => {{
        $crate::memory::mark($alloc, $crate::memory::NONE_ALLOWED);
        let made = $call;
        $crate::memory::mark($alloc, $crate::memory::NONE_ALLOWED);
        made
    }};
}

pub(crate) use with_refusals;
pub(crate) use without_memory;
