//! Rows rise by their functions, and are found by these.
ghost use Rattle.std.specs.Prelude.{◌↔◌, ◌+◌, ◌<◌, ◌≤◌, ℕ, IsTrue, length, slice_index_or};
ghost use Rattle.std.specs.List.Sorted.{IsNonDecreasingBy};
ghost use Rattle.elf_model.specs.Image.MapText.{Ascends};
ghost use Rattle.judge_model.specs.declared.frame_record.FrameRow.{FrameRow as Row};

use judge_model::FrameRow;

/// Whether no function begins before that of the row in front of it.
fn are_neighbours_rising(rows: &[FrameRow]) -> bool
    ensures { IsTrue result ↔ Ascends (λ p q. p.function ≤ q.function) rows.now }
{
    rows.windows(2)
        .all(|pair| pair[0].function <= pair[1].function)
}

/// Whether rows rise by their functions.
pub fn are_rising(rows: &[FrameRow]) -> bool
    ensures { IsTrue result ↔ IsNonDecreasingBy (λ row. row.function) rows.now }
{
    are_neighbours_rising(rows)
}

/// How many rows have a function that doesn't begin behind an address.
pub fn count_not_behind(rows: &[FrameRow], address: u64) -> usize
    requires { IsNonDecreasingBy (λ row. row.function) rows.now }
    ensures within { result ≤ length rows.now }
    ensures before { (k : ℕ) (d : Row) → k < result
        → (slice_index_or rows.now k d).function ≤ address }
    ensures behind { (k : ℕ) (d : Row) → result ≤ k → k < length rows.now
        → address < (slice_index_or rows.now k d).function }
{
    rows.partition_point(|row| row.function <= address)
}
