//! Which fields of relocations aren't right, object by object.
ghost use Rattle.std.specs.Prelude.{◌≡◌, ◌↔◌, ◌%◌, ◌^◌, ◌&&◌, [], All, IfSome, IsTrue, None, Some, is_some, unwrap_or};
ghost use Rattle.std.specs.List.{slice_get};
ghost use Rattle.elf_model.specs.Inputs.ObjectFile as object_file;
ghost use Rattle.elf_model.specs.Inputs.ObjectFile.{rela_symbol};
ghost use Rattle.elf_model.specs.Link.Pieces.{is_executable};
ghost use Rattle.elf_model.specs.Link.Relocation.{relocations, relocations_from, symbol_at};
ghost use Rattle.check_link.specs.Views.{symbol_view};
ghost use Rattle.check_load.specs.KeptRelocations.{relocation_at};
ghost use Rattle.check_load.specs.Views.{loaded_view};
ghost use Rattle.field_judge.specs.Given.{IsGiven, pointer_of};
ghost use Rattle.field_judge.specs.Rewritten.{instruction_view};
ghost use Rattle.link_fields.specs.Parts as words;
ghost use Rattle.judge_model.specs.Links.{ForeignLink};
ghost use Rattle.judge_model.specs.Means.{added, is_sum, natural};
ghost use Rattle.judge_model.specs.Rewrites.{instruction_in};
ghost use Rattle.judge_model.specs.RightForeign.{Holds};
ghost use Rattle.judge_model.specs.declared.judgement.Requirement.TheVariants as requirement;
ghost use Rattle.link_fields.specs.Parts.{AreTaken, IsFieldRightIn, IsFieldRightUnlessOut, IsMeant, IsPlaceRightIn, given, is_in_list, parts_of};
ghost use Rattle.link_fields.specs.Wrong.{IsDenied, IsWrongField, field_named};
ghost use Rattle.check_load.specs.declared.kept_relocations.KeptRelocation.{KeptRelocation};

use crate::drops::Drops;
use crate::meanings::{Meant, symbol_meant};
use crate::parts::LinkParts;
use crate::wrong_places::{WrongField, field_named};
use check_link::SymbolOf;
use check_load::{KeptRelocation, Loaded};
use elf_model::{Rela, SHF_EXECINSTR};
use elf_read::ObjectFile;
use field_judge::{
    Asked, Instruction, front_of, instruction_in, is_of_kind, is_place_right, thread_pointer,
};
use memory_judge::Taken;

/// Symbol `j` of object `number`; the null symbol where there is no such symbol.
fn symbol_of<'a>(loaded: &Loaded<'a>, number: u64, j: usize) -> SymbolOf<'a>
    ensures { symbol_view result ≡ symbol_at number (loaded_view loaded.now) j }
{
    let entry = loaded.object.symbol(j);
    SymbolOf {
        object: number,
        number: j as u64,
        name: loaded.object.symbol_name(j),
        entry,
        dropped: loaded.is_dropped(entry.st_shndx as usize),
    }
}

/// Whether a section has frames, by its name.
fn has_frames(object: &ObjectFile<'_>, section: usize) -> bool
    ensures { result ≡ words.has_frames (unwrap_or (object_file.section_name object.now section) []) }
{
    match object.section_name(section) {
        Some(name) => name == b".eh_frame".as_slice(),
        None => false,
    }
}

/// Whether the formula of a kind is S + A (AMD64 psABI 4.4): R_X86_64_64, 32, 32S, 16 or 8.
fn is_sum(kind: u32) -> bool
    ensures { result ≡ is_sum kind }
{
    kind == 1 || kind == 10 || kind == 11 || kind == 12 || kind == 14
}

/// The addend as a number, where it isn't negative.
fn natural(addend: i64) -> Option<u64>
    ensures { result ≡ natural addend }
{
    if addend < 0 {
        return None;
    }
    Some(addend as u64)
}

/// The addend of a relocation that says which string or constant of a section is meant, where the section itself is named: one that
/// isn't negative, of a kind whose formula is S + A.
fn added(entry: &Rela) -> Option<u64>
    ensures { result ≡ added entry.now }
{
    if is_sum(entry.kind()) {
        natural(entry.r_addend)
    } else {
        None
    }
}

/// Whether a section of object `number` has an address of its own.
fn has_address(parts: &LinkParts<'_, '_, '_>, number: u64, section: u32) -> bool
    ensures { result ≡ is_some (words.address_of parts.now.placed number section) }
{
    parts.addresses.address(number, section as u64).is_some()
}

/// Whether a section of object `number` has call frames that have an address of their own.
fn has_own_frames(
    parts: &LinkParts<'_, '_, '_>,
    number: u64,
    loaded: &Loaded<'_>,
    section: u32,
) -> bool
    ensures { result ≡ (words.has_frames (unwrap_or (object_file.section_name loaded.now.object section) [])
        && is_some (words.address_of parts.now.placed number section)) }
{
    has_frames(&loaded.object, section as usize) && has_address(parts, number, section)
}

/// What the symbol of a relocation of a section of object `number` means to it.
fn meant_at<'a>(
    parts: &LinkParts<'_, '_, 'a>,
    number: u64,
    loaded: &Loaded<'a>,
    section: u32,
    entry: &Rela,
) -> Meant
    ensures { IsMeant parts.now
        (words.has_frames (unwrap_or (object_file.section_name loaded.now.object section) [])
        && is_some (words.address_of parts.now.placed number section))
        (symbol_at number (loaded_view loaded.now) (rela_symbol entry.now)) (added entry.now) result }
{
    let frames = has_own_frames(parts, number, loaded, section);
    let symbol = symbol_of(loaded, number, entry.symbol() as usize);
    symbol_meant(parts, frames, &symbol, added(entry))
}

/// What a relocation of object `number` asks of its field, given the thread pointer.
pub fn asked_of<'a>(
    parts: &LinkParts<'_, '_, 'a>,
    number: u64,
    loaded: &Loaded<'a>,
    relocation: &KeptRelocation,
    thread_pointer: u64,
) -> Asked
    requires { thread_pointer ≡ pointer_of parts.now.image % 2 ^ 64 }
    ensures { IsGiven parts.now.image result
        (given parts.now (relocation_at number (loaded_view loaded.now) relocation.now)) }
{
    let entry = relocation.entry;
    let found = meant_at(parts, number, loaded, relocation.section, &entry);
    Asked {
        value: found.value,
        addend: entry.r_addend,
        at: address_or_zero(parts, number, relocation.section as u64),
        offset: entry.r_offset,
        size: found.size,
        got: parts.got,
        thread: found.thread,
        thread_pointer,
    }
}

/// The address of a section, 0 where it has none.
fn address_or_zero(parts: &LinkParts<'_, '_, '_>, object: u64, section: u64) -> u64
    ensures { result ≡ unwrap_or (words.address_of parts.now.placed object section) 0 }
{
    match parts.addresses.address(object, section) {
        Some(at) => at,
        None => 0,
    }
}

/// The bytes of a section; none where it has none in the file.
fn section_bytes<'a>(loaded: &Loaded<'a>, section: u32) -> &'a [u8]
    ensures { result.now ≡ unwrap_or (object_file.section_bytes loaded.now.object section) [] }
{
    match loaded.object.section_bytes(section as usize) {
        Some(bytes) => bytes,
        None => &[],
    }
}

/// The instruction of a relocation of an object, as the input has it.
fn instruction_of(loaded: &Loaded<'_>, relocation: &KeptRelocation) -> Instruction
    ensures { instruction_view result ≡ instruction_in
        (unwrap_or (object_file.section_bytes loaded.now.object relocation.now.section) [])
        relocation.now.entry }
{
    instruction_in(section_bytes(loaded, relocation.section), &relocation.entry)
}

/// Whether a section of an object has code.
fn is_code(loaded: &Loaded<'_>, section: u32) -> bool
    ensures { result ≡ is_executable
        (object_file.section (object_file.sections loaded.now.object) section) }
{
    let header = loaded.object.section(section as usize);
    header.sh_flags & SHF_EXECINSTR != 0
}

/// Whether the place of a relocation of object `number` is right, among things that take up memory.
fn is_own_place_right<'a>(
    parts: &LinkParts<'_, '_, 'a>,
    taken: &Taken<'_>,
    number: u64,
    loaded: &Loaded<'a>,
    relocation: &KeptRelocation,
    thread_pointer: u64,
) -> bool
    requires pointer { thread_pointer ≡ pointer_of parts.now.image % 2 ^ 64 }
    requires own { slice_get parts.now.objects number ≡ Some (loaded_view loaded.now) }
    ensures { IsTrue result ↔ IsPlaceRightIn parts.now taken.now
        (relocation_at number (loaded_view loaded.now) relocation.now) }
{
    let asked = asked_of(parts, number, loaded, relocation, thread_pointer);
    let kind = relocation.entry.kind();
    let front = front_of(&relocation.entry);
    if front == 0 {
        return is_of_kind(parts.image, taken, &asked, kind);
    }
    let code = is_code(loaded, relocation.section);
    let i = instruction_of(loaded, relocation);
    is_place_right(parts.image, taken, &asked, kind, front, code, i)
}

/// Whether a section of object `number` has call frames that are in the linker's list.
pub fn is_in_list(
    parts: &LinkParts<'_, '_, '_>,
    number: u64,
    loaded: &Loaded<'_>,
    section: u32,
) -> bool
    ensures { (k : KeptRelocation) → k.section ≡ section
        → result ≡ is_in_list parts.now (relocation_at number (loaded_view loaded.now) k) }
{
    has_frames(&loaded.object, section as usize) && !has_address(parts, number, section)
}

/// Whether the place of a relocation of object `number` is right, where it isn't one of call frames in the linker's list.
fn is_field_right<'a>(
    parts: &LinkParts<'_, '_, 'a>,
    taken: &Taken<'_>,
    number: u64,
    loaded: &Loaded<'a>,
    relocation: &KeptRelocation,
    thread_pointer: u64,
) -> bool
    requires pointer { thread_pointer ≡ pointer_of parts.now.image % 2 ^ 64 }
    requires own { slice_get parts.now.objects number ≡ Some (loaded_view loaded.now) }
    ensures { IsTrue result ↔ IsFieldRightIn parts.now taken.now
        (relocation_at number (loaded_view loaded.now) relocation.now) }
{
    if is_in_list(parts, number, loaded, relocation.section) {
        return true;
    }
    is_own_place_right(parts, taken, number, loaded, relocation, thread_pointer)
}

/// Whether the field of a relocation is right, or its section is left out.
fn is_right_unless_out<'a>(
    parts: &LinkParts<'_, '_, 'a>,
    taken: &Taken<'_>,
    drops: &Drops<'_>,
    number: u64,
    loaded: &Loaded<'a>,
    relocation: &KeptRelocation,
    thread_pointer: u64,
) -> bool
    requires pointer { thread_pointer ≡ pointer_of parts.now.image % 2 ^ 64 }
    requires own { slice_get parts.now.objects number ≡ Some (loaded_view loaded.now) }
    ensures { IsTrue result ↔ IsFieldRightUnlessOut parts.now taken.now drops.now
        (relocation_at number (loaded_view loaded.now) relocation.now) }
{
    if drops.has(number, relocation.section as u64) {
        return true;
    }
    is_field_right(parts, taken, number, loaded, relocation, thread_pointer)
}

/// The first field of the relocations of object `number` that isn't right, but for those of sections that are left out.
fn wrong_own<'a>(
    parts: &LinkParts<'_, '_, 'a>,
    taken: &Taken<'_>,
    drops: &Drops<'_>,
    number: u64,
    loaded: &Loaded<'a>,
    thread_pointer: u64,
) -> Option<WrongField>
    requires pointer { thread_pointer ≡ pointer_of parts.now.image % 2 ^ 64 }
    requires own { slice_get parts.now.objects number ≡ Some (loaded_view loaded.now) }
    ensures right { result ≡ None → All (IsFieldRightUnlessOut parts.now taken.now drops.now)
        (relocations_from number (loaded_view loaded.now)) }
    ensures wrong { IfSome result (IsDenied (IsFieldRightUnlessOut parts.now taken.now drops.now)
        field_named (relocations_from number (loaded_view loaded.now))) }
{
    for relocation in loaded.relocations() {
        if !is_right_unless_out(
            parts,
            taken,
            drops,
            number,
            loaded,
            &relocation,
            thread_pointer,
        ) {
            return Some(field_named(number, &relocation));
        }
    }
    None
}

/// The first field of all relocations that isn't right, but for those of sections that are left out.
fn wrong_among(
    parts: &LinkParts<'_, '_, '_>,
    taken: &Taken<'_>,
    drops: &Drops<'_>,
) -> Option<WrongField>
    ensures right { result ≡ None → All (IsFieldRightUnlessOut parts.now taken.now drops.now)
        (relocations parts.now.objects) }
    ensures wrong { IfSome result (IsDenied (IsFieldRightUnlessOut parts.now taken.now drops.now)
        field_named (relocations parts.now.objects)) }
{
    let objects = parts.names.objects();
    let pointer = thread_pointer(parts.image);
    for k in 0..objects.len() {
        if let Some(field) = wrong_own(parts, taken, drops, k as u64, &objects[k], pointer) {
            return Some(field);
        }
    }
    None
}

/// The first field of a link's relocations that isn't right; None where all are. Given are the link's parts, the lines of the sections
/// that are left out, and where memory is taken: by headers, notes, sections and common blocks, and in the gaps of runs.
pub fn wrong_field(
    parts: &LinkParts<'_, '_, '_>,
    taken: &Taken<'_>,
    drops: &Drops<'_>,
) -> Option<WrongField>
    ensures right { (l : ForeignLink) → parts_of l ≡ parts.now → l.certificate.drops ≡ drops.now
        → AreTaken l taken.now → result ≡ None → Holds requirement.F5 l }
    ensures wrong { (l : ForeignLink) → parts_of l ≡ parts.now → l.certificate.drops ≡ drops.now
        → AreTaken l taken.now → IfSome result (IsWrongField l) }
{
    wrong_among(parts, taken, drops)
}
