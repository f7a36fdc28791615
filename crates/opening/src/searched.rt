//! Whether only archives that a plan searches were read in part.
ghost use Rattle.std.specs.Prelude.{◌≡◌, ◌↔◌, ℕ, All, List, [], IsTrue, None, find, map};
ghost use Rattle.command.specs.Views.{item_of};
ghost use Rattle.opening.specs.Held.{AreSearched, IsSearchedOrWhole, is_part_named};

use crate::files::part_named;
use ar_index::PartFile;
use command::{Item, Plan, Source};

/// Whether no file that was read in part has a name.
fn has_none(parts: &[PartFile], name: &str) -> bool
    ensures { IsTrue result ↔ (find (is_part_named name.now) parts.now ≡ None) }
{
    match part_named(parts, name) {
        Some(_) => false,
        None => true,
    }
}

/// Whether an item is an archive that is searched, or no file that was read in part is its.
fn is_searched(parts: &[PartFile], item: &Item<'_>) -> bool
    ensures searched { (directories : List (List ℕ)) → IsTrue result
        → IsSearchedOrWhole parts.now directories (item_of item.now) }
    ensures none { parts.now ≡ [] → IsTrue result }
{
    if item.archive && !item.whole {
        return true;
    }
    match item.source {
        Source::Path(path) => has_none(parts, path),
        Source::Library(_) => parts.is_empty(),
    }
}

/// Whether each of some items is an archive that is searched, or no file that was read in part is its.
fn are_all_searched(parts: &[PartFile], items: &[Item<'_>]) -> bool
    ensures searched { (directories : List (List ℕ)) → IsTrue result
        → All (IsSearchedOrWhole parts.now directories) (map item_of items.now) }
    ensures none { parts.now ≡ [] → IsTrue result }
{
    for item in items {
        if !is_searched(parts, item) {
            return false;
        }
    }
    true
}

/// Whether only archives that a plan searches were read in part.
pub fn are_searched(plan: &Plan<'_>, parts: &[PartFile]) -> bool
    ensures searched { IsTrue result → AreSearched parts.now plan.now }
    ensures none { parts.now ≡ [] → IsTrue result }
{
    are_all_searched(parts, &plan.items)
}
