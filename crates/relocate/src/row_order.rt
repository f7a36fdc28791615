//! Rows of patches in the order of their places. Relocations mostly stand in that order already.
ghost use Rattle.std.specs.Prelude.{◌↔◌, ◌≤◌, IsTrue, length};
ghost use Rattle.relocate.specs.ObjectRows.{HasOrderedRow};
ghost use Rattle.reloc_values.specs.Patches.{IsOrdered, IsPatchRow};

use reloc_values::Patch;

/// Whether each patch begins where the one before begins, or after.
fn ascends(row: &[Patch]) -> bool
    ensures { IsTrue result ↔ IsOrdered row.now }
{
    row.windows(2).all(|w| w[0].at <= w[1].at)
}

/// Puts the patches of a list from a number on in the order of their places; they are sorted only where they aren't in order.
/// It takes no memory.
pub fn order_from(patches: &mut [Patch], begin: usize)
    requires { begin ≤ length patches.old }
    ensures { HasOrderedRow begin patches.old patches.new }
{
    let (_, row) = patches.split_at_mut(begin);
    order_row(row);
}

/// Puts a row in the order of its places.
fn order_row(row: &mut [Patch])
    ensures { IsPatchRow row.old row.new }
{
    if !ascends(row) {
        row.sort_unstable_by_key(|patch| patch.at);
    }
}
