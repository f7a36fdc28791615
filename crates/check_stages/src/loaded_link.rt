//! A link whose objects are loaded: what the third clause judges.
ghost use Rattle.std.specs.Prelude.{◌≡◌, IfOk};
ghost use Rattle.elf_model.specs.Link.Pieces.{kept_sections};
ghost use Rattle.elf_model.specs.Image.RightLink.{objects_of};
ghost use Rattle.check_link.specs.Views.{piece_views};
ghost use Rattle.check_load.specs.Numbered.{AreNumbered};
ghost use Rattle.check_load.specs.Views.{loaded_views};

use check_link::{CommonLines, Link, Names, Piece, pieces_of};
use check_load::{Loaded, NameTable};
use std::alloc::{AllocError, Global};
use std::marker::Model;

/// A link with the names of its loaded objects, their kept sections, and the common lines of its map.
#[derive(Drop)]
pub struct LoadedLink<'o, 'a> {
    link: &'a Link<'a>,
    names: Names<'o, 'a>,
    pieces: Vec<Piece<'a>>,
    lines: CommonLines<'a>,
}

impl<'o, 'a> Model for LoadedLink<'o, 'a> {
    ghost use Rattle.elf_model.specs.Image.RightLink.{Subject};
    ghost use Rattle.check_link.specs.Views.{piece_views};
    ghost use Rattle.check_stages.specs.Links.{IsLoadedLink};

    ghost Value = { Subject };

    ghost view = { λ l. l.link.now };

    ghost invariant = { λ l. IsLoadedLink l.link.now l.names (piece_views l.pieces.items) l.lines };
}

impl<'o, 'a> LoadedLink<'o, 'a> {
    /// A link with its loaded objects and the names whose numbers their symbols have.
    pub fn new(
        alloc: Global,
        link: &'a Link<'a>,
        objects: &'o [Loaded<'a>],
        names: NameTable<'a>,
    ) -> Result<LoadedLink<'o, 'a>, AllocError>
        requires objects { loaded_views objects.now ≡ objects_of link.now }
        requires numbered { AreNumbered names objects.now }
        ensures { IfOk result (λ l. l ≡ link.entry.now) }
    {
        let names = Names::new(alloc, objects, names)?;
        let pieces = pieces_of(alloc, objects)?;
        let lines = CommonLines::new(alloc, &link.map.commons)?;
        Ok(LoadedLink {
            link,
            names,
            pieces,
            lines,
        })
    }

    /// The link itself.
    pub fn link(&self) -> &'a Link<'a>
        ensures { result.now ≡ self.entry.now }
    {
        self.link
    }

    /// The names of the loaded objects.
    pub fn names(&self) -> &Names<'o, 'a>
        ensures { result.now ≡ objects_of self.entry.now }
    {
        &self.names
    }

    /// The kept sections.
    pub fn pieces(&self) -> &[Piece<'a>]
        ensures { piece_views result.now ≡ kept_sections (objects_of self.entry.now) }
    {
        &self.pieces
    }

    /// The common lines of the map.
    pub fn lines(&self) -> &CommonLines<'a>
        ensures { result.now ≡ self.entry.now.map.commons }
    {
        &self.lines
    }
}
