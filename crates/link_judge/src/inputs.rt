//! Whether the inputs of a link are of a kind that is judged, and why not.
ghost use Rattle.std.specs.Prelude.{◌≡◌, ◌↔◌, IfOk, IfSome, IsTrue, None};
ghost use Rattle.check_link.specs.Views.{piece_views};
ghost use Rattle.judge_model.specs.Certificates.{IsInOrder};
ghost use Rattle.judge_model.specs.Frames.{AreFramesReadable};
ghost use Rattle.judge_model.specs.Links.{framed_of};
ghost use Rattle.judge_model.specs.Loaded.{AreReadable};
ghost use Rattle.link_judge.specs.Inputs.{AreFieldsSound, AreInputsSound, AreNamesUnmixed, AreNotesJoined, AreObjectsSound, AreRecordsRead, AreSectionsSound, AreUnedited};
ghost use Rattle.link_judge.specs.Judged.{IsReason};

use crate::judgement::Reason;
use check_link::{Outputs, Piece};
use frame_judge::{FramedSections, are_lines_whole, are_relocations_plain};
use input_judge::{
    are_arrays_whole, are_compiled, are_fields_apart, are_fields_inside, are_instructions_whole,
    are_notes_joined, are_unedited, are_unique,
};
use judge_stages::{LoadedClaim, framed_pieces, is_mixed};
use name_judge::are_names_unmixed;
use std::alloc::{AllocError, Global};

/// Whether the words let the first of two definitions count.
fn takes_first(loaded: &LoadedClaim<'_, '_>) -> bool
    ensures { result ≡ loaded.now.plan.takes_first }
{
    let claim = loaded.claim();
    claim.wider.takes_first
}

/// Whether no object is one for link-time optimization, definitions and common symbols are sound.
fn are_objects_sound(loaded: &LoadedClaim<'_, '_>) -> bool
    ensures { IsTrue result ↔ AreObjectsSound loaded.now }
{
    let names = loaded.names();
    if !are_compiled(names.objects()) || !names.are_sound_commons() {
        return false;
    }
    if takes_first(loaded) {
        return true;
    }
    are_unique(names)
}

/// Whether linkers edited no section that can't be judged then.
fn are_pieces_unedited(alloc: Global, loaded: &LoadedClaim<'_, '_>) -> Result<bool, AllocError>
    ensures { IfOk result (λ b. IsTrue b ↔ AreUnedited loaded.now) }
{
    let places = &loaded.claim().certificate.places;
    are_unedited(alloc, loaded.names().objects(), loaded.pieces(), places)
}

/// Whether the sections of call frames that a linker made one list of can be judged, and the lines of their records.
fn are_records_read(
    alloc: Global,
    loaded: &LoadedClaim<'_, '_>,
    framed: &[Piece<'_>],
) -> Result<bool, AllocError>
    requires { piece_views framed.now ≡ framed_of loaded.now }
    ensures { IfOk result (λ b. IsTrue b ↔ AreRecordsRead loaded.now) }
{
    let Some(sections) = FramedSections::read(alloc, framed)? else {
        return Ok(false);
    };
    if !are_lines_whole(&sections, &loaded.claim().certificate.frames) {
        return Ok(false);
    }
    let objects = loaded.names().objects();
    Ok(are_relocations_plain(&sections, loaded.drops(), objects))
}

/// Whether the call frames of a link can be judged of which its linker made one list.
fn are_frames_readable(alloc: Global, loaded: &LoadedClaim<'_, '_>) -> Result<bool, AllocError>
    requires { IsInOrder loaded.now.certificate }
    ensures { IfOk result (λ b. IsTrue b ↔ AreFramesReadable loaded.now) }
{
    if is_mixed(alloc, loaded)? {
        return Ok(false);
    }
    let framed = framed_pieces(alloc, loaded)?;
    are_records_read(alloc, loaded, &framed)
}

/// Whether no property note has a line.
fn are_properties_joined(alloc: Global, loaded: &LoadedClaim<'_, '_>) -> Result<bool, AllocError>
    ensures { IfOk result (λ b. IsTrue b ↔ AreNotesJoined loaded.now) }
{
    let places = &loaded.claim().certificate.places;
    are_notes_joined(alloc, loaded.pieces(), places)
}

/// Whether names for where sections begin and end speak of one run of them.
fn are_bounds_unmixed(alloc: Global, loaded: &LoadedClaim<'_, '_>) -> Result<bool, AllocError>
    ensures { IfOk result (λ b. IsTrue b ↔ AreNamesUnmixed loaded.now) }
{
    let outputs = Outputs::new(alloc, loaded.pieces())?;
    let rows = &loaded.claim().certificate.names;
    let unmixed = are_names_unmixed(loaded.names(), &outputs, rows);
    Ok(unmixed)
}

/// Whether fields are inside their sections and apart, and no symbol is inside an instruction that linkers may rewrite.
fn are_fields_sound(alloc: Global, loaded: &LoadedClaim<'_, '_>) -> Result<bool, AllocError>
    ensures { IfOk result (λ b. IsTrue b ↔ AreFieldsSound loaded.now) }
{
    let objects = loaded.names().objects();
    if !are_fields_inside(objects, loaded.drops()) {
        return Ok(false);
    }
    if !are_fields_apart(alloc, objects, loaded.drops())? {
        return Ok(false);
    }
    if !are_instructions_whole(alloc, objects, loaded.drops())? {
        return Ok(false);
    }
    Ok(true)
}

/// What there is against the sections and names of a link; None where nothing is.
fn reason_of_sections(
    alloc: Global,
    loaded: &LoadedClaim<'_, '_>,
) -> Result<Option<Reason>, AllocError>
    requires ordered { IsInOrder loaded.now.certificate }
    ensures sound { IfOk result (λ o. o ≡ None → AreSectionsSound loaded.now) }
    ensures reason { IfOk result (λ o. IfSome o (λ r. IsReason r loaded.now)) }
{
    if !are_arrays_whole(loaded.pieces()) {
        return Ok(Some(Reason::Arrays));
    }
    if !are_pieces_unedited(alloc, loaded)? {
        return Ok(Some(Reason::Edited));
    }
    if !are_frames_readable(alloc, loaded)? {
        return Ok(Some(Reason::Records));
    }
    if !are_properties_joined(alloc, loaded)? {
        return Ok(Some(Reason::Joined));
    }
    if !are_bounds_unmixed(alloc, loaded)? {
        return Ok(Some(Reason::Mixed));
    }
    Ok(None)
}

/// Why a link isn't judged whose inputs can be read, whatever its image is; None where it may be.
pub fn reason_against(
    alloc: Global,
    loaded: &LoadedClaim<'_, '_>,
) -> Result<Option<Reason>, AllocError>
    requires readable { AreReadable loaded.now.files loaded.now.plan.plan }
    requires ordered { IsInOrder loaded.now.certificate }
    ensures sound { IfOk result (λ o. o ≡ None → AreInputsSound loaded.now) }
    ensures reason { IfOk result (λ o. IfSome o (λ r. IsReason r loaded.now)) }
{
    if !are_objects_sound(loaded) {
        return Ok(Some(Reason::Objects));
    }
    if let Some(reason) = reason_of_sections(alloc, loaded)? {
        return Ok(Some(reason));
    }
    if !are_fields_sound(alloc, loaded)? {
        return Ok(Some(Reason::Fields));
    }
    Ok(None)
}
