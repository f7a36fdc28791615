//! A link that is judged whose objects are loaded: the names of these, and the sections that the image has.
ghost use Rattle.std.specs.Prelude.{◌≡◌, IfOk, filter};
ghost use Rattle.check_link.specs.Views.{piece_views};
ghost use Rattle.check_load.specs.Numbered.{AreNumbered};
ghost use Rattle.check_load.specs.Views.{loaded_views};
ghost use Rattle.elf_model.specs.Link.Pieces.{kept_sections};
ghost use Rattle.judge_model.specs.Certificates.{IsInOrder};
ghost use Rattle.judge_model.specs.Frames.{has_own_frames, is_mixed};
ghost use Rattle.judge_model.specs.Links.{framed_of, merged_of, objects_of, pieces_of, plain_pieces};
ghost use Rattle.judge_stages.specs.Stages.{is_there};

use crate::claim::Claim;
use crate::keys::keys_of;
use crate::pieces::{are_mixed, framed_among, has_own, merged_among, plain_among, those_there};
use check_link::{Names, Piece, pieces_of};
use check_load::{Loaded, NameTable};
use link_fields::Drops;
use std::alloc::{AllocError, Global};
use std::marker::Model;

/// A link with the names of its loaded objects, the lines of the sections that are left out, and the other sections.
#[derive(Drop)]
pub struct LoadedClaim<'o, 'a> {
    claim: &'a Claim<'a>,
    names: Names<'o, 'a>,
    drops: Drops<'a>,
    pieces: Vec<Piece<'a>>,
}

impl<'o, 'a> Model for LoadedClaim<'o, 'a> {
    ghost use Rattle.check_link.specs.Views.{piece_views};
    ghost use Rattle.judge_model.specs.Links.{ForeignLink};
    ghost use Rattle.judge_stages.specs.Stages.{IsLoadedClaim};

    ghost Value = { ForeignLink };

    ghost view = { λ c. c.claim.now };

    ghost invariant = { λ c. IsLoadedClaim c.claim.now c.names c.drops (piece_views c.pieces.items) };
}

/// The sections of objects that aren't left out.
fn image_pieces<'a>(
    alloc: Global,
    objects: &[Loaded<'a>],
    drops: &Drops<'_>,
) -> Result<Vec<Piece<'a>>, AllocError>
    ensures { IfOk result (λ v. piece_views v.items
        ≡ filter (is_there drops.now) (kept_sections (loaded_views objects.now))) }
{
    let kept = pieces_of(alloc, objects)?;
    those_there(alloc, &kept, drops)
}

impl<'o, 'a> LoadedClaim<'o, 'a> {
    /// A link with its loaded objects and the names whose numbers their symbols have. The lines of its certificate are in order.
    ///
    /// # Errors
    ///
    /// Only where memory is refused.
    pub fn new(
        alloc: Global,
        claim: &'a Claim<'a>,
        objects: &'o [Loaded<'a>],
        names: NameTable<'a>,
    ) -> Result<LoadedClaim<'o, 'a>, AllocError>
        requires objects { loaded_views objects.now ≡ objects_of claim.now }
        requires numbered { AreNumbered names objects.now }
        requires ordered { IsInOrder claim.now.certificate }
        ensures { IfOk result (λ c. c ≡ claim.entry.now) }
    {
        let drops = Drops::new(&claim.certificate.drops);
        let pieces = image_pieces(alloc, objects, &drops)?;
        let names = Names::new(alloc, objects, names)?;
        Ok(LoadedClaim {
            claim,
            names,
            drops,
            pieces,
        })
    }

    /// What is claimed.
    pub fn claim(&self) -> &'a Claim<'a>
        ensures { result.now ≡ self.entry.now }
    {
        self.claim
    }

    /// The names of the loaded objects.
    pub fn names(&self) -> &Names<'o, 'a>
        ensures { result.now ≡ objects_of self.entry.now }
    {
        &self.names
    }

    /// The lines of the sections that are left out.
    pub fn drops(&self) -> &Drops<'a>
        ensures { result.now ≡ self.entry.now.certificate.drops }
    {
        &self.drops
    }

    /// The sections that the image has.
    pub fn pieces(&self) -> &[Piece<'a>]
        ensures { piece_views result.now ≡ pieces_of self.entry.now }
    {
        &self.pieces
    }
}

/// The sections of a link that its linker didn't edit.
///
/// # Errors
///
/// Only where memory is refused.
pub fn plain_pieces<'a>(
    alloc: Global,
    loaded: &LoadedClaim<'_, 'a>,
) -> Result<Vec<Piece<'a>>, AllocError>
    requires { IsInOrder loaded.now.certificate }
    ensures { IfOk result (λ v. piece_views v.items ≡ plain_pieces loaded.now) }
{
    let claim = loaded.claim();
    let keys = keys_of(alloc, &claim.certificate.places)?;
    plain_among(alloc, loaded.pieces(), &Drops::new(&keys))
}

/// The sections of a link that its linker merged.
///
/// # Errors
///
/// Only where memory is refused.
pub fn merged_pieces<'a>(
    alloc: Global,
    loaded: &LoadedClaim<'_, 'a>,
) -> Result<Vec<Piece<'a>>, AllocError>
    requires { IsInOrder loaded.now.certificate }
    ensures { IfOk result (λ v. piece_views v.items ≡ merged_of loaded.now) }
{
    let claim = loaded.claim();
    let keys = keys_of(alloc, &claim.certificate.places)?;
    merged_among(alloc, loaded.pieces(), &Drops::new(&keys))
}

/// The sections of call frames of which its linker made one list.
///
/// # Errors
///
/// Only where memory is refused.
pub fn framed_pieces<'a>(
    alloc: Global,
    loaded: &LoadedClaim<'_, 'a>,
) -> Result<Vec<Piece<'a>>, AllocError>
    requires { IsInOrder loaded.now.certificate }
    ensures { IfOk result (λ v. piece_views v.items ≡ framed_of loaded.now) }
{
    let claim = loaded.claim();
    let keys = keys_of(alloc, &claim.certificate.places)?;
    framed_among(alloc, loaded.pieces(), &Drops::new(&keys))
}

/// Whether some section of call frames of a link has a place line.
///
/// # Errors
///
/// Only where memory is refused.
pub fn has_own_frames(alloc: Global, loaded: &LoadedClaim<'_, '_>) -> Result<bool, AllocError>
    requires { IsInOrder loaded.now.certificate }
    ensures { IfOk result (λ b. b ≡ has_own_frames loaded.now) }
{
    let claim = loaded.claim();
    let keys = keys_of(alloc, &claim.certificate.places)?;
    Ok(has_own(loaded.pieces(), &Drops::new(&keys)))
}

/// Whether some sections of call frames of a link have place lines and others have none.
///
/// # Errors
///
/// Only where memory is refused.
pub fn is_mixed(alloc: Global, loaded: &LoadedClaim<'_, '_>) -> Result<bool, AllocError>
    requires { IsInOrder loaded.now.certificate }
    ensures { IfOk result (λ b. b ≡ is_mixed loaded.now) }
{
    let claim = loaded.claim();
    let keys = keys_of(alloc, &claim.certificate.places)?;
    Ok(are_mixed(loaded.pieces(), &Drops::new(&keys)))
}
