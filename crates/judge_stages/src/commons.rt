//! The common blocks that have a line.
ghost use Rattle.std.specs.Prelude.{◌≡◌, IfOk, filter};
ghost use Rattle.check_link.specs.Views.{block_view, block_views};
ghost use Rattle.judge_model.specs.Links.{has_common_line};

use check_link::{Block, CommonLines};
use std::alloc::{AllocError, Global};

/// Whether a common block has a line.
fn has_line(lines: &CommonLines<'_>, block: &Block<'_>) -> bool
    ensures { result ≡ has_common_line lines.now (block_view block.now) }
{
    lines.line(block.name).is_some()
}

/// The common blocks that have a line.
pub fn lined_blocks<'a>(
    alloc: Global,
    lines: &CommonLines<'_>,
    blocks: &[Block<'a>],
) -> Result<Vec<Block<'a>>, AllocError>
    ensures { IfOk result (λ v. block_views v.items
        ≡ filter (has_common_line lines.now) (block_views blocks.now)) }
{
    let mut lined = Vec::with_capacity(alloc, blocks.len())?;
    for block in blocks {
        if has_line(lines, block) {
            lined.push(*block)?;
        }
    }
    Ok(lined)
}
