//! The names that the linker itself defines where no object does (docs/PROFILE.md).
ghost use Rattle.std.specs.Prelude.{◌≡◌, drop, find, option_map};
ghost use Rattle.std.specs.List.{list_all};
ghost use Rattle.std.specs.Str.{bytes_eq};
ghost use Rattle.elf_model.specs.Link.LinkerNames as linker;
ghost use Rattle.elf_model.specs.Link.LinkerNames.{array_named, bound_names, fixed_bound, named_output, output_bound};
ghost use Rattle.resolve.specs.Outputs.{array_facts, array_view, bound_among};

use crate::outputs::is_among;
use elf_model::Bound;
use std::collections::BTreeSet;

fn is(text: &[u8], name: &[u8]) -> bool
    ensures { result ≡ bytes_eq text.now name.now }
{
    text == name
}

/// What the name of a boundary of the image stands for.
fn boundary(name: &[u8]) -> Option<Bound>
    ensures { result ≡ option_map (λ b. b.bound)
        (find (λ b. bytes_eq b.name name.now) bound_names) }
{
    if is(b"__executable_start", name) || is(b"__ehdr_start", name) {
        return Some(Bound::ImageStart);
    }
    if is(b"_etext", name) || is(b"etext", name) {
        return Some(Bound::CodeEnd);
    }
    if is(b"_edata", name) || is(b"edata", name) {
        return Some(Bound::DataEnd);
    }
    if is(b"__bss_start", name) {
        return Some(Bound::ZeroStart);
    }
    if is(b"_end", name) || is(b"end", name) {
        return Some(Bound::ImageEnd);
    }
    if is(b"_GLOBAL_OFFSET_TABLE_", name) {
        return Some(Bound::GotStart);
    }
    None
}

/// What the name of an array's boundary stands for, and the output name of the array's sections.
fn array_named(name: &[u8]) -> Option<(Bound, &'static [u8])>
    ensures { option_map array_view result ≡ option_map array_facts (array_named name.now) }
{
    if is(b"__init_array_start", name) {
        return Some((Bound::OutputStart, b".init_array"));
    }
    if is(b"__init_array_end", name) {
        return Some((Bound::OutputEnd, b".init_array"));
    }
    if is(b"__fini_array_start", name) {
        return Some((Bound::OutputStart, b".fini_array"));
    }
    if is(b"__fini_array_end", name) {
        return Some((Bound::OutputEnd, b".fini_array"));
    }
    if is(b"__preinit_array_start", name) {
        return Some((Bound::OutputStart, b".preinit_array"));
    }
    if is(b"__preinit_array_end", name) {
        return Some((Bound::OutputEnd, b".preinit_array"));
    }
    None
}

fn is_between(low: u8, high: u8, byte: u8) -> bool
    ensures { result ≡ linker.is_between low high byte }
{
    low <= byte && byte <= high
}

fn is_letter(byte: u8) -> bool
    ensures { result ≡ linker.is_letter byte }
{
    is_between(65, 90, byte) || is_between(97, 122, byte) || byte == 95
}

fn is_letter_or_digit(byte: u8) -> bool
    ensures { result ≡ linker.is_letter_or_digit byte }
{
    is_letter(byte) || is_between(48, 57, byte)
}

fn are_letters_or_digits(bytes: &[u8]) -> bool
    ensures { result ≡ list_all linker.is_letter_or_digit bytes.now }
{
    bytes.iter().all(|b| is_letter_or_digit(*b))
}

/// Whether bytes are an identifier of C.
fn is_identifier(bytes: &[u8]) -> bool
    ensures { result ≡ linker.is_identifier bytes.now }
{
    match bytes.split_first() {
        Some((first, rest)) => is_letter(*first) && are_letters_or_digits(rest),
        None => false,
    }
}

/// Whether a name is `__start_N` of an identifier N.
fn is_start_name(name: &[u8]) -> bool
    ensures { result ≡ linker.is_start_name name.now }
{
    match name.strip_prefix(b"__start_") {
        Some(rest) => is_identifier(rest),
        None => false,
    }
}

/// Whether a name is `__stop_N` of an identifier N.
fn is_stop_name(name: &[u8]) -> bool
    ensures { result ≡ linker.is_stop_name name.now }
{
    match name.strip_prefix(b"__stop_") {
        Some(rest) => is_identifier(rest),
        None => false,
    }
}

/// What a name stands for that the linker always defines.
#[tactic(auto, unfolding(elf_model::specs::Link::LinkerNames::fixed_bound))]
fn fixed_bound(name: &[u8]) -> Option<Bound>
    ensures { result ≡ fixed_bound name.now }
{
    if let Some(bound) = boundary(name) {
        return Some(bound);
    }
    match array_named(name) {
        Some((bound, _)) => Some(bound),
        None => None,
    }
}

/// What `__start_N` and `__stop_N` stand for, where there are sections of output name N.
#[tactic(auto, unfolding(elf_model::specs::Link::LinkerNames::output_bound))]
fn output_bound(name: &[u8]) -> Option<Bound>
    ensures { result ≡ output_bound name.now }
{
    if is_start_name(name) {
        return Some(Bound::OutputStart);
    }
    if is_stop_name(name) {
        return Some(Bound::OutputEnd);
    }
    None
}

/// The bytes from a place on, none past the end.
fn behind(name: &[u8], place: usize) -> &[u8]
    ensures { result.now ≡ drop place name.entry.now }
{
    if place > name.len() {
        return &[];
    }
    let (_, rest) = name.split_at(place);
    rest
}

/// The output name of which a name of the linker's speaks, where it speaks of one.
#[tactic(auto, unfolding(elf_model::specs::Link::LinkerNames::named_output))]
pub fn named_output(name: &[u8]) -> &[u8]
    ensures { result.now ≡ named_output name.entry.now }
{
    if let Some((_, output)) = array_named(name) {
        return output;
    }
    if is_start_name(name) {
        return behind(name, 8);
    }
    behind(name, 7)
}

/// What a name stands for, where kept sections have these output names; None where the linker defines nothing for it.
pub fn bound_of(outputs: &BTreeSet<&[u8]>, name: &[u8]) -> Option<Bound>
    ensures { result ≡ bound_among outputs.now name.now }
{
    if let Some(bound) = fixed_bound(name) {
        return Some(bound);
    }
    if !is_among(named_output(name), outputs) {
        return None;
    }
    output_bound(name)
}
