//! RELA sections in the order of the sections that they relocate. Those of an object mostly are in that order already.
ghost use Rattle.std.specs.Prelude.{◌≡◌, ◌≢◌, ◌↔◌, ◌<◌, ◌≤◌, ℕ, IfOk, IsTrue, length, slice_index_or};
ghost use Rattle.std.specs.List.Sorted.{IsNonDecreasingBy};
ghost use Rattle.elf_model.specs.Link.ArrayOrder.{by_rank};
ghost use Rattle.relocate.specs.RelaOrders.{IsByNeighbours, target_of};

use search::KeptRela;
use std::alloc::{AllocError, Global};

/// Whether each relocates the section that the one before relocates, or a later one.
pub fn ascend(relas: &[KeptRela]) -> bool
    ensures { IsTrue result ↔ IsByNeighbours relas.now }
{
    relas.windows(2).all(|w| w[0].target <= w[1].target)
}

/// RELA sections in the order of the sections that they relocate, those of one section as they come.
pub fn ordered(alloc: Global, relas: &[KeptRela]) -> Result<Vec<KeptRela>, AllocError>
    ensures order { IfOk result (λ v. v.items ≡ by_rank target_of relas.now) }
    ensures rises { IfOk result (λ v. IsNonDecreasingBy target_of v.items) }
{
    let mut relas = Vec::from_slice(alloc, relas)?;
    relas.sort_by_key(|rela| rela.target)?;
    Ok(relas)
}

/// The number behind the first RELA sections of a list, from a number on, that relocate the same section.
pub fn row_end(relas: &[KeptRela], from: usize) -> usize
    requires { from < length relas.now }
    ensures within { result ≤ length relas.now }
    ensures some { from < result }
    ensures same { (k : ℕ) (d : KeptRela) →
        from ≤ k → k < result
        → target_of (slice_index_or relas.now k d) ≡ target_of (slice_index_or relas.now from d) }
    ensures other { (d : KeptRela) →
        result < length relas.now
        → target_of (slice_index_or relas.now result d)
        ≢ target_of (slice_index_or relas.now from d) }
{
    let target = relas[from].target;
    let mut end = from + 1;
    'same: while end < relas.len() && relas[end].target == target {
        end += 1;
    }
    end
}
