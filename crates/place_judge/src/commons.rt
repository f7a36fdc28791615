//! Whether the common lines of a certificate are those of the common blocks.
ghost use Rattle.std.specs.Prelude.{◌≡◌, ◌↔◌, ℕ, All, IsTrue, List, map};
ghost use Rattle.std.specs.Cow.{cow_slice_items};
ghost use Rattle.elf_model.specs.Image.RightLink.{HasCommonLine};
ghost use Rattle.linkmap.specs.Borrowed.{common_row};
ghost use Rattle.place_judge.specs.Places.{IsCommonIn};

use check_link::{CommonLines, Names};
use linkmap::BorrowedCommon;

/// Whether each of some lines is that of its name's block.
fn have_blocks(index: &CommonLines<'_>, names: &Names<'_, '_>, lines: &[BorrowedCommon<'_>]) -> bool
    ensures { IsTrue result ↔ All
        (λ line. HasCommonLine index.now names.now (cow_slice_items line.name)) lines.now }
{
    for line in lines {
        if !index.has_line(names, &line.name) {
            return false;
        }
    }
    true
}

/// Whether common lines, which are given by their names too, are those of the common blocks, name by name, but for
/// addresses. Where sections may be left out (--gc-sections), so may blocks.
pub fn are_commons_right(
    lines: &[BorrowedCommon<'_>],
    index: &CommonLines<'_>,
    names: &Names<'_, '_>,
    collects: bool,
) -> bool
    requires { index.now ≡ map common_row lines.now }
    ensures { IsTrue result ↔ ((name : List ℕ) → IsCommonIn index.now names.now collects name) }
{
    if collects {
        return have_blocks(index, names, lines);
    }
    index.are_of_blocks(names)
}
