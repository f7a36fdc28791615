//! The addresses of lines, by which it is found whether one has an address.
ghost use Rattle.std.specs.Prelude.{◌≡◌, ◌↔◌, ◌<◌, ◌≤◌, ℕ, Contains, IfOk, IsPermutation, IsTrue, length, slice_index_or};
ghost use Rattle.std.specs.List.Sorted.{IsNonDecreasingBy};
ghost use Rattle.judge_model.specs.Frames.{line_addresses};

use judge_model::MergedLine;
use std::alloc::{AllocError, Global};

/// The addresses of lines, in their order.
fn addresses_of(alloc: Global, lines: &[MergedLine]) -> Result<Vec<u64>, AllocError>
    ensures { IfOk result (λ v. v.items ≡ line_addresses lines.now) }
{
    let mut addresses = Vec::with_capacity(alloc, lines.len())?;
    for line in lines {
        addresses.push(line.address)?;
    }
    Ok(addresses)
}

/// The addresses of lines, by rising addresses.
pub fn rising_addresses(alloc: Global, lines: &[MergedLine]) -> Result<Vec<u64>, AllocError>
    ensures same { IfOk result (λ v. IsPermutation (line_addresses lines.now) v.items) }
    ensures rising { IfOk result (λ v. IsNonDecreasingBy (λ a. a) v.items) }
{
    let mut addresses = addresses_of(alloc, lines)?;
    addresses.sort_by_key(|a| *a)?;
    Ok(addresses)
}

/// How many of the addresses are below one.
fn count_below(addresses: &[u64], address: u64) -> usize
    requires { IsNonDecreasingBy (λ a. a) addresses.now }
    ensures within { result ≤ length addresses.now }
    ensures below { (k : ℕ) (d : ℕ) → k < result → slice_index_or addresses.now k d < address }
    ensures from { (k : ℕ) (d : ℕ) → result ≤ k → k < length addresses.now
        → address ≤ slice_index_or addresses.now k d }
{
    addresses.partition_point(|a| *a < address)
}

/// Whether an address is among those that rise. It takes the logarithm of their number.
pub fn has_address(addresses: &[u64], address: u64) -> bool
    requires { IsNonDecreasingBy (λ a. a) addresses.now }
    ensures { IsTrue result ↔ Contains addresses.now address }
{
    match addresses.get(count_below(addresses, address)) {
        Some(found) => *found == address,
        None => false,
    }
}
