//! Lists of copies of one value, made by a loop that writes nothing else: `vec!` counts each element as it comes.
ghost use Rattle.std.specs.Prelude.{◌≡◌, IfOk, replicate};

use std::alloc::{AllocError, Global};

/// A list of a number of copies of a value.
///
/// # Errors
///
/// Where memory is refused.
pub fn filled<T: Copy + Drop>(alloc: Global, value: T, count: usize) -> Result<Vec<T>, AllocError>
    ensures { IfOk result (λ v. v.items ≡ replicate count value) }
{
    let mut copies = Vec::new(alloc);
    copies.resize(count, value)?;
    Ok(copies)
}
