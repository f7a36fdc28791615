//! The sections that have place lines, found as those are that have lines of what is left out.
ghost use Rattle.std.specs.Prelude.{◌≡◌, IfOk, map};
ghost use Rattle.elf_model.specs.Image.MapRecord.{place_row};
ghost use Rattle.elf_model.specs.Image.MapText.{Ascends, DropBefore, PlaceBefore};
ghost use Rattle.judge_stages.specs.Stages.{key_of};

use elf_model::{DropLine, PlaceLine};
use std::alloc::{AllocError, Global};

/// The section of a line.
fn key_of(line: &PlaceLine) -> DropLine
    ensures { result ≡ key_of (place_row line.now) }
{
    DropLine {
        object: line.object,
        section: line.section,
    }
}

/// The sections of lines that come by object and section.
pub fn keys_of(alloc: Global, lines: &[PlaceLine]) -> Result<Vec<DropLine>, AllocError>
    requires { Ascends PlaceBefore (map place_row lines.now) }
    ensures keys { IfOk result (λ v. v.items ≡ map key_of (map place_row lines.now)) }
    ensures rising { IfOk result (λ v. Ascends DropBefore v.items) }
{
    let mut keys = Vec::with_capacity(alloc, lines.len())?;
    for line in lines {
        keys.push(key_of(line))?;
    }
    Ok(keys)
}
