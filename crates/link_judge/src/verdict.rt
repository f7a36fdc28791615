//! The whole judgement, from the top: what isn't judged, and the requirements in their order, each judged where all before it hold.
ghost use Rattle.std.specs.Prelude.{◌≡◌, ◌↔◌, ℕ, IfOk, IsTrue, List, None};
ghost use Rattle.elf_model.specs.Inputs.Files.{files_of};
ghost use Rattle.judge_model.specs.Certificates.{IsInOrder, certificate_of};
ghost use Rattle.check_load.specs.Numbered.{AreNumbered};
ghost use Rattle.check_load.specs.Views.{loaded_views};
ghost use Rattle.judge_model.specs.Links.{objects_of, sections_of};
ghost use Rattle.link_fields.specs.Parts.{AreTaken};
ghost use Rattle.run_judge.specs.Pairs.{AreRunPairs};
ghost use Rattle.judge_model.specs.Loaded.{AreReadable};
ghost use Rattle.judge_model.specs.RightForeign.{HasNoOtherTable, Holds, IsJudged};
ghost use Rattle.judge_model.specs.declared.judgement.Requirement.TheVariants as which;
ghost use Rattle.foreign_words.specs.Spoken.{IsSpokenBy, IsWhole};
ghost use Rattle.link_judge.specs.Inputs.{AreInputsSound};
ghost use Rattle.link_judge.specs.Judged.{HoldsBefore, IsCodePlain, IsJudgedBy, IsWrongAt, Judges, link_of, requirement_of};

use crate::judgement::{Judgement, Place, Reason};
use crate::rewrites::has_shared_thread_code;
use crate::{
    f02_kept, f03_placed, f04_names, f05_fields, f07_rests, f08_frames, f09_threads,
    f10_nothing_else, f11_entry, f12_headers, f13_tables, inputs,
};
use byteview::View;
use check_link::{CommonLines, Outputs};
use check_load::NamedObjects;
use elf_model::{InputFile, NameSeed};
use foreign_image::{ForeignImage, has_frame_table};
use foreign_words::Spoken;
use judge_model::{Certificate, Requirement};
use judge_stages::{
    BoundClaim, Claim, LoadedClaim, PlacedClaim, borrowed_commons, has_own_frames, plain_pieces,
};
use link_fields::{Addresses, MergedLines};
use memory_judge::Taken;
use order_judge::{OrderFault, load_in_order};
use place_judge::is_in_order;
use run_judge::{RunPair, run_pairs, taken_of};
use std::alloc::{AllocError, Global};

/// Decides whether an image is a right link of files by the words of the linker that made it, which have been read, as a certificate
/// shows: Yes, or a requirement that fails (docs/DEFINITIONS.md); NotJudged of what the words or the inputs leave open.
///
/// Names are hashed from the seed, which whoever picks them mustn't know, or found by their order without one.
///
/// # Errors
///
/// Only where memory is refused.
pub fn judge(
    alloc: Global,
    spoken: &Spoken<'_>,
    files: &[InputFile],
    image: &[u8],
    certificate: &Certificate,
    seed: Option<NameSeed>,
) -> Result<Judgement, AllocError>
    requires whole { IsWhole spoken.now }
    ensures { (words : List (List ℕ)) → IsSpokenBy words spoken.now
        → IfOk result (λ j. IsJudgedBy words (files_of files.now) image.now
        (certificate_of certificate.now) j) }
{
    let plan = spoken.plan(alloc)?;
    let claim = Claim {
        plan,
        wider: spoken.wider(),
        files,
        image,
        certificate,
    };
    judge_claim(alloc, &claim, seed)
}

/// The answer for a requirement that fails, where all before it hold.
fn no(requirement: Requirement, claim: &Claim<'_>) -> Judgement
    requires judged { IsJudged claim.now }
    requires before { HoldsBefore requirement claim.now }
    requires fails { ¬ Holds requirement claim.now }
    requires code { IsCodePlain requirement claim.now }
    ensures { Judges result claim.now }
{
    Judgement::No(requirement)
}

/// The answer where a field, or the bytes beside fields, aren't right: not judged where that may be as the linker rewrote code that asks
/// for thread-local storage.
fn no_code(place: Place, placed: &PlacedClaim<'_, '_>) -> Judgement
    requires judged { IsJudged placed.now }
    requires before { HoldsBefore (requirement_of place) placed.now }
    requires wrong { IsWrongAt place placed.now }
    ensures { Judges result placed.now }
{
    if has_shared_thread_code(placed.names().objects(), placed.drops()) {
        return Judgement::NotJudged(Reason::Code);
    }
    Judgement::NoAt(place)
}

/// Judges a link without a script.
fn judge_claim<'a>(
    alloc: Global,
    claim: &'a Claim<'a>,
    seed: Option<NameSeed>,
) -> Result<Judgement, AllocError>
    requires script { claim.now.plan.script ≡ None }
    ensures { IfOk result (λ j. Judges j claim.entry.now) }
{
    let rows = &claim.certificate.objects;
    match load_in_order(alloc, &claim.plan, claim.files, rows, seed) {
        Ok(named) => judge_loaded(alloc, claim, named, seed),
        Err(OrderFault::Memory) => Err(AllocError),
        Err(OrderFault::Unreadable) => Ok(Judgement::NotJudged(Reason::Unreadable)),
        Err(OrderFault::Unordered) => Ok(Judgement::No(Requirement::F1)),
    }
}

/// Judges a link whose objects are loaded.
fn judge_loaded<'a>(
    alloc: Global,
    claim: &'a Claim<'a>,
    named: NamedObjects<'a>,
    seed: Option<NameSeed>,
) -> Result<Judgement, AllocError>
    requires script { claim.now.plan.script ≡ None }
    requires objects { loaded_views named.objects.items ≡ objects_of claim.now }
    requires numbered { AreNumbered named.names named.objects.items }
    requires readable { AreReadable claim.now.files claim.now.plan.plan }
    requires first { Holds which.F1 claim.now }
    ensures { IfOk result (λ j. Judges j claim.entry.now) }
{
    if !is_in_order(claim.certificate) {
        return Ok(Judgement::No(Requirement::F3));
    }
    let NamedObjects { objects, names } = named;
    let loaded = LoadedClaim::new(alloc, claim, &objects, names)?;
    if let Some(reason) = inputs::reason_against(alloc, &loaded)? {
        return Ok(Judgement::NotJudged(reason));
    }
    judge_image(alloc, &loaded, seed)
}

/// Whether an image has no table of call frames, or none of these stand as they came.
fn has_no_other_table(
    alloc: Global,
    loaded: &LoadedClaim<'_, '_>,
    image: &ForeignImage<'_>,
) -> Result<bool, AllocError>
    requires ordered { IsInOrder loaded.now.certificate }
    requires image { image.now ≡ loaded.now.image }
    ensures { IfOk result (λ b. IsTrue b ↔ HasNoOtherTable loaded.now) }
{
    if !has_frame_table(image.headers()) {
        return Ok(true);
    }
    let own = has_own_frames(alloc, loaded)?;
    Ok(!own)
}

/// Judges a link of whose inputs nothing speaks against that.
fn judge_image<'a>(
    alloc: Global,
    loaded: &LoadedClaim<'_, 'a>,
    seed: Option<NameSeed>,
) -> Result<Judgement, AllocError>
    requires script { loaded.now.plan.script ≡ None }
    requires ordered { IsInOrder loaded.now.certificate }
    requires sound { AreInputsSound loaded.now }
    requires first { Holds which.F1 loaded.now }
    ensures { IfOk result (λ j. Judges j loaded.now) }
{
    let claim = loaded.claim();
    let Some(image) = ForeignImage::read(alloc, View::new(claim.image))? else {
        return Ok(Judgement::No(Requirement::F12));
    };
    if !has_no_other_table(alloc, loaded, &image)? {
        return Ok(Judgement::NotJudged(Reason::Frames));
    }
    judge_kept(alloc, loaded, image, seed)
}

/// Judges a link from the second requirement on.
fn judge_kept<'a>(
    alloc: Global,
    loaded: &LoadedClaim<'_, 'a>,
    image: ForeignImage<'a>,
    seed: Option<NameSeed>,
) -> Result<Judgement, AllocError>
    requires script { loaded.now.plan.script ≡ None }
    requires ordered { IsInOrder loaded.now.certificate }
    requires judged { IsJudged loaded.now }
    requires image { image ≡ loaded.now.image }
    requires first { Holds which.F1 loaded.now }
    ensures { IfOk result (λ j. Judges j loaded.now) }
{
    if !f02_kept::holds(alloc, loaded)? {
        return Ok(no(Requirement::F2, loaded.claim()));
    }
    judge_sections(alloc, loaded, image, seed)
}

/// Judges a link from the third requirement on.
fn judge_sections<'a>(
    alloc: Global,
    loaded: &LoadedClaim<'_, 'a>,
    image: ForeignImage<'a>,
    seed: Option<NameSeed>,
) -> Result<Judgement, AllocError>
    requires script { loaded.now.plan.script ≡ None }
    requires ordered { IsInOrder loaded.now.certificate }
    requires judged { IsJudged loaded.now }
    requires image { image ≡ loaded.now.image }
    requires before { HoldsBefore which.F3 loaded.now }
    ensures { IfOk result (λ j. Judges j loaded.now) }
{
    let claim = loaded.claim();
    let rows = borrowed_commons(alloc, &claim.certificate.commons)?;
    let lines = CommonLines::new(alloc, &rows)?;
    let plain = plain_pieces(alloc, loaded)?;
    let placed = PlacedClaim::new(alloc, loaded, image, plain, &lines)?;
    let pairs = run_pairs(alloc, placed.sections())?;
    if !f03_placed::holds(alloc, &placed, &rows, &lines, &pairs)? {
        return Ok(no(Requirement::F3, claim));
    }
    judge_placed(alloc, &placed, &pairs, seed)
}

/// Judges a link whose sections are placed right, given the neighbours of its runs.
fn judge_placed(
    alloc: Global,
    placed: &PlacedClaim<'_, '_>,
    pairs: &[RunPair<'_>],
    seed: Option<NameSeed>,
) -> Result<Judgement, AllocError>
    requires pairs { AreRunPairs (sections_of placed.now) pairs.now }
    requires script { placed.now.plan.script ≡ None }
    requires judged { IsJudged placed.now }
    requires before { HoldsBefore which.F4 placed.now }
    ensures { IfOk result (λ j. Judges j placed.now) }
{
    let outputs = Outputs::new(alloc, placed.pieces())?;
    let addresses = Addresses::new(alloc, placed.placed())?;
    let merged = MergedLines::new(&placed.claim().certificate.merged);
    let things = taken_of(alloc, placed.things(), pairs)?;
    let taken = Taken::new(alloc, &things)?;
    let bound = BoundClaim::new(placed, &outputs, &addresses, &merged);
    judge_names(alloc, &bound, &taken, pairs, seed)
}

/// Judges a link from the fourth requirement on.
fn judge_names(
    alloc: Global,
    bound: &BoundClaim<'_, '_, '_>,
    taken: &Taken<'_>,
    pairs: &[RunPair<'_>],
    seed: Option<NameSeed>,
) -> Result<Judgement, AllocError>
    requires taken { AreTaken bound.now taken.now }
    requires pairs { AreRunPairs (sections_of bound.now) pairs.now }
    requires script { bound.now.plan.script ≡ None }
    requires judged { IsJudged bound.now }
    requires before { HoldsBefore which.F4 bound.now }
    ensures { IfOk result (λ j. Judges j bound.now) }
{
    let claim = bound.placed().claim();
    if !f04_names::holds(alloc, bound)? {
        return Ok(no(Requirement::F4, claim));
    }
    if let Some(field) = f05_fields::wrong(bound, taken) {
        return Ok(no_code(Place::Field(field), bound.placed()));
    }
    judge_rests(alloc, bound, taken, pairs, seed)
}

/// Judges a link from the seventh requirement on; the sixth asks for nothing.
fn judge_rests(
    alloc: Global,
    bound: &BoundClaim<'_, '_, '_>,
    taken: &Taken<'_>,
    pairs: &[RunPair<'_>],
    seed: Option<NameSeed>,
) -> Result<Judgement, AllocError>
    requires taken { AreTaken bound.now taken.now }
    requires pairs { AreRunPairs (sections_of bound.now) pairs.now }
    requires judged { IsJudged bound.now }
    requires placed { Holds which.F3 bound.now }
    requires before { HoldsBefore which.F7 bound.now }
    ensures { IfOk result (λ j. Judges j bound.now) }
{
    if let Some(rest) = f07_rests::wrong(alloc, bound)? {
        return Ok(no_code(Place::Rest(rest), bound.placed()));
    }
    judge_frames(alloc, bound, taken, pairs, seed)
}

/// Judges a link from the eighth requirement on.
fn judge_frames(
    alloc: Global,
    bound: &BoundClaim<'_, '_, '_>,
    taken: &Taken<'_>,
    pairs: &[RunPair<'_>],
    seed: Option<NameSeed>,
) -> Result<Judgement, AllocError>
    requires taken { AreTaken bound.now taken.now }
    requires pairs { AreRunPairs (sections_of bound.now) pairs.now }
    requires judged { IsJudged bound.now }
    requires placed { Holds which.F3 bound.now }
    requires before { HoldsBefore which.F8 bound.now }
    ensures { IfOk result (λ j. Judges j bound.now) }
{
    let claim = bound.placed().claim();
    if !f08_frames::holds(alloc, bound, taken)? {
        return Ok(no(Requirement::F8, claim));
    }
    if !f09_threads::holds(bound.placed()) {
        return Ok(no(Requirement::F9, claim));
    }
    if !f10_nothing_else::holds(alloc, bound, taken, pairs)? {
        return Ok(no(Requirement::F10, claim));
    }
    judge_headers(alloc, bound, seed)
}

/// Judges a link from the eleventh requirement on.
fn judge_headers(
    alloc: Global,
    bound: &BoundClaim<'_, '_, '_>,
    seed: Option<NameSeed>,
) -> Result<Judgement, AllocError>
    requires judged { IsJudged bound.now }
    requires before { HoldsBefore which.F11 bound.now }
    ensures { IfOk result (λ j. Judges j bound.now) }
{
    let claim = bound.placed().claim();
    if !f11_entry::holds(bound) {
        return Ok(no(Requirement::F11, claim));
    }
    if !f12_headers::holds(bound.placed()) {
        return Ok(no(Requirement::F12, claim));
    }
    if !f13_tables::holds(alloc, bound, seed)? {
        return Ok(no(Requirement::F13, claim));
    }
    Ok(Judgement::Yes)
}
