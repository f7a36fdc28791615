//! The kept sections of loaded objects as pieces.
ghost use Rattle.std.specs.Prelude.{◌≡◌, ◌≤◌, ◌++◌, All, IfOk, OnOk, length};
ghost use Rattle.elf_model.specs.Inputs.ObjectFile.{sections};
ghost use Rattle.elf_model.specs.Link.Pieces as piece_words;
ghost use Rattle.check_load.specs.Views.{loaded_view, loaded_views};
ghost use Rattle.check_link.specs.Views.{piece_view, piece_views};

use crate::things::Piece;
use check_load::Loaded;
use elf_model::SectionHeader;
use elf_read::ObjectFile;
use std::alloc::{AllocError, Global};

/// Section `i` of object `number` as a piece.
fn piece_of<'a>(number: u64, object: &ObjectFile<'a>, i: usize, header: SectionHeader) -> Piece<'a>
    ensures { piece_view result ≡ piece_words.piece_of number object.now i header }
{
    Piece {
        object: number,
        section: i as u64,
        header,
        name: object.section_name(i).unwrap_or(&[]),
        bytes: object.section_bytes(i).unwrap_or(&[]),
    }
}

/// Puts the kept sections of an object behind the pieces.
fn add_pieces<'a>(
    out: &mut Vec<Piece<'a>>,
    number: u64,
    loaded: &Loaded<'a>,
) -> Result<(), AllocError>
    ensures { OnOk result (piece_views out.new.items
        ≡ piece_views out.old.items
        ++ piece_words.pieces_from number (loaded_view loaded.now) 0 (sections loaded.now.object)) }
{
    let sections = loaded.kept_sections();
    for section in sections {
        let i = *section as usize;
        out.push(piece_of(number, &loaded.object, i, loaded.object.section(i)))?;
    }
    Ok(())
}

/// How many kept sections objects have; the greatest number where they are more.
fn kept_count(objects: &[Loaded<'_>]) -> usize {
    let mut count: usize = 0;
    for loaded in objects {
        count = count.saturating_add(loaded.kept_sections().len());
    }
    count
}

/// The kept sections of all objects, in load order.
pub fn pieces_of<'a>(alloc: Global, objects: &[Loaded<'a>]) -> Result<Vec<Piece<'a>>, AllocError>
    ensures pieces { IfOk result (λ v. piece_views v.items
        ≡ piece_words.kept_sections (loaded_views objects.now)) }
    ensures sizes { IfOk result (λ v. All (λ p. length p.bytes ≤ p.size) (piece_views v.items)) }
{
    let mut found = Vec::with_capacity(alloc, kept_count(objects))?;
    for (k, loaded) in objects.iter().enumerate() {
        add_pieces(&mut found, k as u64, loaded)?;
    }
    Ok(found)
}
