//! The values of an instant.

ghost use Rattle.std.specs.Prelude.{◌≡◌, ◌<◌, length, IfOk, IsErr};

use giotto_tasks::lists::List;
use std::alloc::{AllocError, Global};

/// A list of these values, one for each line. Allocates if there is a value.
///
/// # Errors
/// Out of memory.
pub fn copy_of_frame(alloc: Global, frame: &[i64]) -> Result<List<i64>, AllocError>
    ensures same { IfOk result (λ copy. copy ≡ frame.now) }
    ensures memory { IsErr result → 0 < length frame.now }
{
    let mut values = Vec::new(alloc);
    values.extend_from_slice(frame)?;
    Ok(List::from_vec(values))
}
