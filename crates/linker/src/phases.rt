//! From the words and the files to a link that is prepared, phase by phase, and from that to its map.
ghost use Rattle.std.specs.Prelude.{◌≡◌, IfErr, IfOk, Ok, OnOk, map};
ghost use Rattle.elf_model.specs.Own.Causes.{Cause};
ghost use Rattle.elf_model.specs.Inputs.Command.{IsBase, Plan, command_of};
ghost use Rattle.elf_model.specs.Inputs.Files.{files_of, words_of};
ghost use Rattle.elf_model.specs.Own.ImageFile.{IsOwnMap, own_end};
ghost use Rattle.elf_model.specs.Link.Listing.{AreLinkerLines};
ghost use Rattle.elf_model.specs.Image.MapRecord.{map_of};
ghost use Rattle.elf_model.specs.Own.OwnAddresses.{AreOwnAddresses};
ghost use Rattle.elf_model.specs.Own.OwnLayout.{IsNotTooLarge, own_where};
ghost use Rattle.elf_model.specs.Link.Relocation.{AreLawfulRelocations};
ghost use Rattle.elf_model.specs.Link.Slots as wanted;
ghost use Rattle.opening.specs.Held.{AreSearched, held_files};
ghost use Rattle.resolve.specs.Views.{meaning_view, meaning_views};
ghost use Rattle.symbols.specs.Rows.{no_rows};
ghost use Rattle.relocate.specs.Uses.{line_views};
ghost use Rattle.relocate.specs.Values.{slot_value_of};
ghost use Rattle.image_write.specs.Linkages.{AreParts};
ghost use Rattle.image_write.specs.Listings.{IsListing};
ghost use Rattle.image_write.specs.Maps.{own_table};
ghost use Rattle.image_write.specs.Tables.{HasTable};
ghost use Rattle.linker.specs.FinalRefusals.{DeniesLinks};
ghost use Rattle.linker.specs.Linkages.{AreOwnMapsRight, HasOwnLink, HasTabled, IsPrepared, kept_of};
ghost use Rattle.linker.specs.Outputs.{AreLaidOut, AreLinkable, AreReferred, AreResolved, EntersAt, LinksRefuse};

use crate::listed_definitions::listed;
use crate::own_map::map_of_layout;
use crate::refusals::{command_error, layout_error, reloc_error, resolve_error, search_error};
use crate::spelled_lines::show_spellings;
use ar_index::PartFile;
use command::read_words;
use elf_model::{Bound, InputFile, LinkError, LinkMap, NameSeed};
use got_tls::Slots;
use image_write::{Linkage, Listed, Parts, SymbolTable, definition_value, file_end};
use layout::{GotSize, Placement, kinds, place};
use relocate::{Patches, linker_lines, patches, referred_slots, slot_values};
use resolve::{Definition, Resolved, resolve_in};
use search::{Loaded, load_parts};
use std::alloc::{AllocError, Global};
use symbols::{IndexedTable, NameTable};

/// The names of what is loaded, whose kept sections are of lawful kinds, resolved.
fn resolved_names<'a, T: NameTable<'a> + Drop>(
    alloc: Global,
    loaded: &Loaded<'a>,
    table: T,
) -> Result<Resolved<'a>, LinkError>
    requires { T.rows table ≡ no_rows }
    ensures exact { IfOk result (λ r. r ≡ loaded.now.objects) }
    ensures resolved { OnOk result (AreResolved loaded.now.objects) }
    ensures fault { IfErr result (LinksRefuse loaded.now.plan loaded.now.objects) }
{
    match kinds(loaded) {
        Ok(()) => {}
        Err(fault) => return Err(layout_error(fault)),
    }
    match resolve_in(alloc, loaded, table) {
        Ok(resolved) => Ok(resolved),
        Err(fault) => Err(resolve_error(fault)),
    }
}

/// The GOT that kept relocations ask for, where all of them are lawful.
fn judged_slots<'a>(
    alloc: Global,
    loaded: &Loaded<'a>,
    resolved: &Resolved<'a>,
) -> Result<Slots<'a>, LinkError>
    requires same { resolved.now ≡ loaded.now.objects }
    requires resolved { AreResolved loaded.now.objects }
    ensures objects { IfOk result (λ s. s.objects ≡ loaded.now.objects) }
    ensures slots { IfOk result (λ s. s.slots ≡ wanted.slots loaded.now.objects) }
    ensures size { IfOk result (λ s. s.got ≡ wanted.got_size loaded.now.objects) }
    ensures lawful { OnOk result (AreLawfulRelocations loaded.now.objects) }
    ensures fault { IfErr result (LinksRefuse loaded.now.plan loaded.now.objects) }
{
    match referred_slots(alloc, loaded, resolved) {
        Ok(slots) => Ok(slots),
        Err(fault) => Err(reloc_error(fault)),
    }
}

/// The definition of the entry, where all kept relocations are lawful.
fn referred_entry<'a>(
    loaded: &Loaded<'a>,
    resolved: &Resolved<'a>,
) -> Result<Definition<'a>, LinkError>
    requires same { resolved.now ≡ loaded.now.objects }
    requires resolved { AreResolved loaded.now.objects }
    requires lawful { AreLawfulRelocations loaded.now.objects }
    ensures entry { IfOk result (λ m.
        EntersAt loaded.now.plan loaded.now.objects (meaning_view m)) }
    ensures referred { OnOk result (AreReferred loaded.now.plan loaded.now.objects) }
    ensures fault { IfErr result (LinksRefuse loaded.now.plan loaded.now.objects) }
{
    match resolved.entry(loaded.plan().entry.as_bytes()) {
        Some(entry) => Ok(entry),
        None => Err(LinkError::NoEntry),
    }
}

/// What is loaded, whose references are lawful, laid out with its common blocks and its GOT, which has this size, from the
/// plan's base on.
fn laid_out<'a>(
    alloc: Global,
    loaded: &Loaded<'a>,
    resolved: &Resolved<'a>,
    got: GotSize,
) -> Result<Placement<'a>, LinkError>
    requires same { resolved.now ≡ loaded.now.objects }
    requires got { got.0 ≡ wanted.got_size loaded.now.objects }
    requires base { IsBase loaded.now.plan.base }
    requires referred { AreReferred loaded.now.plan loaded.now.objects }
    ensures placed { IfOk result (λ p. p
        ≡ record { base = loaded.now.plan.base; objects = loaded.now.objects }) }
    ensures fits { OnOk result (IsNotTooLarge loaded.now.plan.base loaded.now.objects) }
    ensures fault { IfErr result (LinksRefuse loaded.now.plan loaded.now.objects) }
{
    match place(alloc, loaded, resolved, got, loaded.plan().base) {
        Ok(placement) => Ok(placement),
        Err(fault) => Err(layout_error(fault)),
    }
}

/// The linker's own names that have a line, and what they stand for.
fn linkers_of<'a>(
    alloc: Global,
    loaded: &Loaded<'a>,
    resolved: &Resolved<'a>,
) -> Result<Vec<(&'a [u8], Bound)>, LinkError>
    requires { resolved.now ≡ loaded.now.objects }
    ensures lines { IfOk result (λ v. AreLinkerLines loaded.now.objects (line_views v.items)) }
    ensures fault { IfErr result (LinksRefuse loaded.now.plan loaded.now.objects) }
{
    let lines = linker_lines(alloc, loaded, resolved)?;
    Ok(lines)
}

/// The definitions that have a line, in the order of their names, and their symbol table, where the words ask for one and the
/// file has room for it.
fn tabled<'a>(
    alloc: Global,
    loaded: &Loaded<'a>,
    resolved: &Resolved<'a>,
    placement: &Placement<'a>,
    linkers: &[(&'a [u8], Bound)],
) -> Result<Option<(Vec<Definition<'a>>, SymbolTable)>, LinkError>
    requires same { resolved.now ≡ loaded.now.objects }
    requires placed { placement.now ≡ record {
      base = loaded.now.plan.base;
      objects = loaded.now.objects;
    } }
    requires linkers { AreLinkerLines loaded.now.objects (line_views linkers.now) }
    requires referred { AreReferred loaded.now.plan loaded.now.objects }
    requires base { IsBase loaded.now.plan.base }
    requires fits { IsNotTooLarge loaded.now.plan.base loaded.now.objects }
    ensures table { IfOk result (HasTabled loaded.now.objects
        (own_end loaded.now.plan.base loaded.now.objects) loaded.now.plan.strip) }
    ensures laid { OnOk result (AreLaidOut loaded.now.plan loaded.now.objects) }
    ensures fault { IfErr result (LinksRefuse loaded.now.plan loaded.now.objects) }
{
    if loaded.plan().strip {
        return Ok(None);
    }
    let listed = listed(alloc, resolved, linkers)?;
    let objects = loaded.objects();
    let end = file_end(placement.segments());
    match SymbolTable::of(objects, &listed, end) {
        Some(table) => Ok(Some((listed, table))),
        None => Err(LinkError::TooLarge),
    }
}

/// What is kept of the definitions that have a line: their list with its symbol table, where there is one; else what they are
/// listed of.
fn kept<'a>(
    resolved: Resolved<'a>,
    linkers: Vec<(&'a [u8], Bound)>,
    tabled: Option<(Vec<Definition<'a>>, SymbolTable)>,
) -> Listed<'a>
    ensures { result ≡ kept_of resolved.entry linkers.entry tabled.entry }
{
    match tabled {
        Some((listed, table)) => Listed::InOrder(listed, table),
        None => Listed::Unlisted(resolved, linkers),
    }
}

/// The patches of what is laid out.
fn fitted<'a>(
    alloc: Global,
    loaded: &Loaded<'a>,
    resolved: &Resolved<'a>,
    placement: &Placement<'a>,
    slots: &Slots<'a>,
) -> Result<Patches<'a>, LinkError>
    requires same { resolved.now ≡ loaded.now.objects }
    requires slots { slots.now ≡ own_table loaded.now.objects }
    requires placed { placement.now ≡ record {
      base = loaded.now.plan.base;
      objects = loaded.now.objects;
    } }
    requires laid { AreLaidOut loaded.now.plan loaded.now.objects }
    ensures patches { IfOk result (λ p. p ≡ placement.now) }
    ensures linkable { OnOk result (AreLinkable loaded.now.plan loaded.now.objects) }
    ensures fault { IfErr result (LinksRefuse loaded.now.plan loaded.now.objects) }
{
    match patches(alloc, loaded, resolved, placement, slots) {
        Ok(patches) => Ok(patches),
        Err(fault) => Err(reloc_error(fault)),
    }
}

/// What the layers made of what is loaded, once all of it is there.
fn parts_of<'a>(
    loaded: &Loaded<'a>,
    resolved: Resolved<'a>,
    linkers: Vec<(&'a [u8], Bound)>,
    tabled: Option<(Vec<Definition<'a>>, SymbolTable)>,
    placement: Placement<'a>,
    slots: Slots<'a>,
    values: Vec<u64>,
    patches: Patches<'a>,
    entry: &Definition<'a>,
) -> Parts<'a>
    requires base { IsBase loaded.now.plan.base }
    requires same { resolved ≡ loaded.now.objects }
    requires linkers { AreLinkerLines loaded.now.objects (line_views linkers.items) }
    requires tabled { HasTabled loaded.now.objects
        (own_end loaded.now.plan.base loaded.now.objects) loaded.now.plan.strip tabled }
    requires placed { placement ≡ record {
      base = loaded.now.plan.base;
      objects = loaded.now.objects;
    } }
    requires slots { slots ≡ own_table loaded.now.objects }
    requires values { values.items ≡ map
        (slot_value_of loaded.now.objects (own_where loaded.now.plan.base loaded.now.objects))
        (wanted.slots loaded.now.objects) }
    requires patches { patches ≡ placement }
    requires linkable { AreLinkable loaded.now.plan loaded.now.objects }
    requires entry { EntersAt loaded.now.plan loaded.now.objects (meaning_view entry.now) }
    ensures { AreParts loaded.now result }
{
    let entry = definition_value(&placement, entry);
    show_spellings(&placement, loaded, &slots, &resolved, &linkers);
    Parts {
        listed: kept(resolved, linkers, tabled),
        placement,
        slots,
        values,
        patches,
        entry,
    }
}

/// The parts of a link whose values fit, with the values of its slots.
fn whole_parts<'a>(
    alloc: Global,
    loaded: &Loaded<'a>,
    resolved: Resolved<'a>,
    linkers: Vec<(&'a [u8], Bound)>,
    tabled: Option<(Vec<Definition<'a>>, SymbolTable)>,
    entry: &Definition<'a>,
    placement: Placement<'a>,
    slots: Slots<'a>,
    patches: Patches<'a>,
) -> Result<Parts<'a>, AllocError>
    requires base { IsBase loaded.now.plan.base }
    requires same { resolved ≡ loaded.now.objects }
    requires linkers { AreLinkerLines loaded.now.objects (line_views linkers.items) }
    requires tabled { HasTabled loaded.now.objects
        (own_end loaded.now.plan.base loaded.now.objects) loaded.now.plan.strip tabled }
    requires placed { placement ≡ record {
      base = loaded.now.plan.base;
      objects = loaded.now.objects;
    } }
    requires slots { slots ≡ own_table loaded.now.objects }
    requires patches { patches ≡ placement }
    requires linkable { AreLinkable loaded.now.plan loaded.now.objects }
    requires entry { EntersAt loaded.now.plan loaded.now.objects (meaning_view entry.now) }
    ensures { IfOk result (AreParts loaded.now) }
{
    let values = slot_values(alloc, loaded, &resolved, &placement, &slots)?;
    Ok(parts_of(
        loaded, resolved, linkers, tabled, placement, slots, values, patches, entry,
    ))
}

/// The lines of the linker's own names, and the definitions that have a line with their symbol table, of what is laid out.
fn names_of<'a>(
    alloc: Global,
    loaded: &Loaded<'a>,
    resolved: &Resolved<'a>,
    placement: &Placement<'a>,
) -> Result<
    (
        Vec<(&'a [u8], Bound)>,
        Option<(Vec<Definition<'a>>, SymbolTable)>,
    ),
    LinkError,
>
    requires same { resolved.now ≡ loaded.now.objects }
    requires placed { placement.now ≡ record {
      base = loaded.now.plan.base;
      objects = loaded.now.objects;
    } }
    requires referred { AreReferred loaded.now.plan loaded.now.objects }
    requires base { IsBase loaded.now.plan.base }
    requires fits { IsNotTooLarge loaded.now.plan.base loaded.now.objects }
    ensures linkers { IfOk result (λ r.
        AreLinkerLines loaded.now.objects (line_views r.0.items)) }
    ensures table { IfOk result (λ r. HasTabled loaded.now.objects
        (own_end loaded.now.plan.base loaded.now.objects) loaded.now.plan.strip r.1) }
    ensures laid { OnOk result (AreLaidOut loaded.now.plan loaded.now.objects) }
    ensures fault { IfErr result (LinksRefuse loaded.now.plan loaded.now.objects) }
{
    let linkers = linkers_of(alloc, loaded, resolved)?;
    let tabled = tabled(alloc, loaded, resolved, placement, &linkers)?;
    Ok((linkers, tabled))
}

/// Judges the values of what is laid out, and makes its parts.
fn prepare_placed<'a>(
    alloc: Global,
    loaded: &Loaded<'a>,
    resolved: Resolved<'a>,
    slots: Slots<'a>,
    entry: &Definition<'a>,
    placement: Placement<'a>,
) -> Result<Parts<'a>, LinkError>
    requires base { IsBase loaded.now.plan.base }
    requires same { resolved ≡ loaded.now.objects }
    requires slots { slots ≡ own_table loaded.now.objects }
    requires placed { placement ≡ record {
      base = loaded.now.plan.base;
      objects = loaded.now.objects;
    } }
    requires referred { AreReferred loaded.now.plan loaded.now.objects }
    requires fits { IsNotTooLarge loaded.now.plan.base loaded.now.objects }
    requires entry { EntersAt loaded.now.plan loaded.now.objects (meaning_view entry.now) }
    ensures made { IfOk result (AreParts loaded.now) }
    ensures linkable { OnOk result (AreLinkable loaded.now.plan loaded.now.objects) }
    ensures fault { IfErr result (LinksRefuse loaded.now.plan loaded.now.objects) }
{
    let (linkers, tabled) = names_of(alloc, loaded, &resolved, &placement)?;
    let patches = fitted(alloc, loaded, &resolved, &placement, &slots)?;
    let parts = whole_parts(
        alloc, loaded, resolved, linkers, tabled, entry, placement, slots, patches,
    )?;
    Ok(parts)
}

/// Resolves, lays out and judges what is loaded.
fn prepare_loaded<'a, T: NameTable<'a> + Drop>(
    alloc: Global,
    loaded: &Loaded<'a>,
    table: T,
) -> Result<Parts<'a>, LinkError>
    requires empty { T.rows table ≡ no_rows }
    requires base { IsBase loaded.now.plan.base }
    ensures made { IfOk result (AreParts loaded.now) }
    ensures linkable { OnOk result (AreLinkable loaded.now.plan loaded.now.objects) }
    ensures fault { IfErr result (LinksRefuse loaded.now.plan loaded.now.objects) }
{
    let resolved = resolved_names(alloc, loaded, table)?;
    let slots = judged_slots(alloc, loaded, &resolved)?;
    let entry = referred_entry(loaded, &resolved)?;
    let placement = laid_out(alloc, loaded, &resolved, slots.got())?;
    prepare_placed(alloc, loaded, resolved, slots, &entry, placement)
}

/// As `prepare_parts`, with a table of names for resolution.
#[tactic(auto, using(crate::proofs::FinalRefusals::finals))]
fn prepare_by<'a, T: NameTable<'a> + Drop>(
    alloc: Global,
    parts: &'a [PartFile],
    files: &'a [InputFile],
    words: &'a [String],
    seed: NameSeed,
    resolution: T,
) -> Result<Linkage<'a>, LinkError>
    requires rows { T.rows resolution ≡ no_rows }
    requires searched { (plan : Plan) → command_of (words_of words.now) ≡ Ok plan
        → AreSearched parts.now plan }
    ensures prepared { IfOk result (IsPrepared (held_files parts.entry.now files.entry.now)
        (words_of words.entry.now)) }
    ensures own { IfOk result (AreOwnMapsRight (held_files parts.entry.now files.entry.now)
        (words_of words.entry.now)) }
    ensures right { IfOk result (HasOwnLink (held_files parts.entry.now files.entry.now) (words_of words.entry.now)) }
    ensures addresses { IfOk result (λ l. AreOwnAddresses l.plan.base l.objects) }
    ensures cause { IfErr result (Cause (held_files parts.entry.now files.entry.now) (words_of words.entry.now)) }
    ensures no_link { IfErr result (DeniesLinks (held_files parts.entry.now files.entry.now)
        (words_of words.entry.now)) }
{
    let plan = match read_words(alloc, words) {
        Ok(plan) => plan,
        Err(fault) => return Err(command_error(fault)),
    };
    let loaded = match load_parts(alloc, &plan, parts, files, seed) {
        Ok(loaded) => loaded,
        Err(fault) => return Err(search_error(fault)),
    };
    match prepare_loaded(alloc, &loaded, resolution) {
        Ok(parts) => Ok(Linkage::new(loaded, parts)),
        Err(error) => Err(error),
    }
}

/// As `prepare`, where of archives that are searched the data of some members may not have been read, and names are found by hash
/// from a seed: who picks the names can make them collide only where the seed is known. Zeros stand for data that weren't read. So
/// a link is answered only where it takes none of these members, and it is then that of the files whatever these data are.
pub fn prepare_parts<'a>(
    alloc: Global,
    parts: &'a [PartFile],
    files: &'a [InputFile],
    words: &'a [String],
    seed: NameSeed,
) -> Result<Linkage<'a>, LinkError>
    requires { (plan : Plan) → command_of (words_of words.now) ≡ Ok plan
        → AreSearched parts.now plan }
    ensures prepared { IfOk result (IsPrepared (held_files parts.entry.now files.entry.now)
        (words_of words.entry.now)) }
    ensures own { IfOk result (AreOwnMapsRight (held_files parts.entry.now files.entry.now)
        (words_of words.entry.now)) }
    ensures right { IfOk result (HasOwnLink (held_files parts.entry.now files.entry.now)
        (words_of words.entry.now)) }
    ensures addresses { IfOk result (λ l. AreOwnAddresses l.plan.base l.objects) }
    ensures cause { IfErr result (Cause (held_files parts.entry.now files.entry.now)
        (words_of words.entry.now)) }
    ensures no_link { IfErr result (DeniesLinks (held_files parts.entry.now files.entry.now)
        (words_of words.entry.now)) }
{
    let resolution = IndexedTable::with_hasher(alloc, seed);
    prepare_by(alloc, parts, files, words, seed, resolution)
}

/// As `prepare`, with two tables of names: one for loading, to which the numbers of names leave nothing to do, and one for
/// resolving names, which finds the common symbols of each block. Both are empty at the start, and are used up.
pub fn prepare_in<'a, T: NameTable<'a> + Drop>(
    alloc: Global,
    files: &'a [InputFile],
    words: &'a [String],
    _loading: T,
    resolution: T,
) -> Result<Linkage<'a>, LinkError>
    requires loading { T.rows _loading ≡ no_rows }
    requires resolution { T.rows resolution ≡ no_rows }
    ensures prepared { IfOk result (IsPrepared (files_of files.entry.now)
        (words_of words.entry.now)) }
    ensures own { IfOk result (AreOwnMapsRight (files_of files.entry.now)
        (words_of words.entry.now)) }
    ensures right { IfOk result (HasOwnLink (files_of files.entry.now) (words_of words.entry.now)) }
    ensures addresses { IfOk result (λ l. AreOwnAddresses l.plan.base l.objects) }
    ensures cause { IfErr result (Cause (files_of files.entry.now) (words_of words.entry.now)) }
    ensures no_link { IfErr result (DeniesLinks (files_of files.entry.now)
        (words_of words.entry.now)) }
{
    prepare_by(alloc, &[], files, words, NameSeed::fixed(), resolution)
}

/// As `prepare`, where names are found by hash from a seed: who picks the names can make them collide only where the seed is
/// known.
pub fn prepare_seeded<'a>(
    alloc: Global,
    files: &'a [InputFile],
    words: &'a [String],
    seed: NameSeed,
) -> Result<Linkage<'a>, LinkError>
    ensures prepared { IfOk result (IsPrepared (files_of files.entry.now)
        (words_of words.entry.now)) }
    ensures own { IfOk result (AreOwnMapsRight (files_of files.entry.now)
        (words_of words.entry.now)) }
    ensures right { IfOk result (HasOwnLink (files_of files.entry.now) (words_of words.entry.now)) }
    ensures addresses { IfOk result (λ l. AreOwnAddresses l.plan.base l.objects) }
    ensures cause { IfErr result (Cause (files_of files.entry.now) (words_of words.entry.now)) }
    ensures no_link { IfErr result (DeniesLinks (files_of files.entry.now)
        (words_of words.entry.now)) }
{
    prepare_parts(alloc, &[], files, words, seed)
}

/// Prepares the link of the files that a command's words name.
///
/// # Errors
///
/// A fault of the first phase that has one: the words (Command), the files (FileMissing), the objects
/// (BadObject, BadArchive, NoIndex, BadGroup), kinds of sections and names (SectionKind, BadCommon, BadSymbol,
/// Duplicate), references (RelocKind, Undefined, RefToDropped, TlsMismatch, MixedSection, FieldOutside,
/// OverlappingFields, NoEntry), the layout (TooLarge), values (Overflow). Memory where memory is refused. Where one
/// is answered other than Memory, TooLarge and Overflow, no image and no map at all are a right link of these files
/// and words. The same is said of TooLarge where one section or common block alone takes up more than all addresses from the base on, and of
/// Overflow where the value that doesn't fit is the same in every layout: `Z+A`, or `S+A` of an absolute definition, of
/// one in a section that isn't kept, of none, or of a linker's name that stands for the base or for nothing.
///
/// Of what is prepared, the own map has a text, and the image and each own map that has one are a right link. Each piece
/// stands at the least multiple of its alignment that the headers, its segment and the pieces before it leave.
pub fn prepare<'a>(
    alloc: Global,
    files: &'a [InputFile],
    words: &'a [String],
) -> Result<Linkage<'a>, LinkError>
    ensures prepared { IfOk result (IsPrepared (files_of files.entry.now)
        (words_of words.entry.now)) }
    ensures own { IfOk result (AreOwnMapsRight (files_of files.entry.now)
        (words_of words.entry.now)) }
    ensures right { IfOk result (HasOwnLink (files_of files.entry.now) (words_of words.entry.now)) }
    ensures addresses { IfOk result (λ l. AreOwnAddresses l.plan.base l.objects) }
    ensures cause { IfErr result (Cause (files_of files.entry.now) (words_of words.entry.now)) }
    ensures no_link { IfErr result (DeniesLinks (files_of files.entry.now)
        (words_of words.entry.now)) }
{
    prepare_seeded(alloc, files, words, NameSeed::fixed())
}

/// The map of a link, of the definitions that have a line, in the order of their names, with their symbol table.
fn map_of_list(
    alloc: Global,
    linkage: &Linkage<'_>,
    listed: &[Definition<'_>],
    table: Option<SymbolTable>,
) -> Result<LinkMap, AllocError>
    requires listed { IsListing linkage.now.objects listed.now }
    requires table { HasTable linkage.now.objects
        (own_end linkage.now.plan.base linkage.now.objects)
        (meaning_views listed.now) linkage.now.plan.strip table }
    ensures { IfOk result (λ m.
        IsOwnMap linkage.now.plan.base linkage.now.objects linkage.now.plan.strip (map_of m)) }
{
    let parts = linkage.parts();
    map_of_layout(
        alloc,
        &parts.placement,
        linkage.loaded(),
        &parts.slots,
        listed,
        table,
    )
}

/// The map of a link: its objects, their dropped sections, their kept ones, the common blocks, the GOT and its slots at
/// their addresses, the definitions of names with their values, and the symbol table; its lines are in order.
pub fn link_map(alloc: Global, linkage: &Linkage<'_>) -> Result<LinkMap, AllocError>
    ensures { IfOk result (λ m.
        IsOwnMap linkage.now.plan.base linkage.now.objects linkage.now.plan.strip (map_of m)) }
{
    let parts = linkage.parts();
    match &parts.listed {
        Listed::InOrder(listed, table) => map_of_list(alloc, linkage, listed, Some(*table)),
        Listed::Unlisted(resolved, linkers) => {
            let listed = listed(alloc, resolved, linkers)?;
            map_of_list(alloc, linkage, &listed, None)
        }
    }
}
