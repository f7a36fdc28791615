//! Things in the order of their addresses.
ghost use Rattle.std.specs.Prelude.{◌<◌, IfOk, IsPermutation};
ghost use Rattle.std.specs.List.Sorted.{IsNonDecreasingBy};

use elf_model::Thing;
use std::alloc::{AllocError, Global};

/// The things in the order of their addresses.
pub fn by_address(alloc: Global, things: &[Thing]) -> Result<Vec<Thing>, AllocError>
    ensures same { IfOk result (λ v. IsPermutation things.now v.items) }
    ensures rising { IfOk result (λ v. IsNonDecreasingBy (λ t. t.at) v.items) }
{
    let mut sorted = Vec::from_slice(alloc, things)?;
    sorted.sort_unstable_by_key(|t| t.at);
    Ok(sorted)
}
