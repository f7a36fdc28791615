//! The names that the linker itself defines where no object does (docs/PROFILE.md).
ghost use Rattle.std.specs.Prelude.{◌≡◌, ◌||◌, drop, find, option_map};
ghost use Rattle.std.specs.List.{list_all};
ghost use Rattle.std.specs.Str.{bytes_eq};
ghost use Rattle.elf_model.specs.Link.LinkerNames as linker;
ghost use Rattle.elf_model.specs.Link.LinkerNames.{array_named, bound_names};
ghost use Rattle.check_link.specs.Views.{held};

use elf_model::Bound;

/// Whether a name is one of two.
fn is_either(first: &[u8], second: &[u8], name: &[u8]) -> bool
    ensures { result ≡ (bytes_eq first.now name.now || bytes_eq second.now name.now) }
{
    first == name || second == name
}

/// What a name stands for that isn't one of an output name.
fn edge_bound(name: &[u8]) -> Option<Bound>
    ensures { result ≡ option_map (λ b. b.bound)
        (find (λ b. bytes_eq b.name name.now) bound_names) }
{
    if is_either(b"__executable_start", b"__ehdr_start", name) {
        return Some(Bound::ImageStart);
    }
    if is_either(b"_etext", b"etext", name) {
        return Some(Bound::CodeEnd);
    }
    if is_either(b"_edata", b"edata", name) {
        return Some(Bound::DataEnd);
    }
    if b"__bss_start".as_slice() == name {
        return Some(Bound::ZeroStart);
    }
    if is_either(b"_end", b"end", name) {
        return Some(Bound::ImageEnd);
    }
    if b"_GLOBAL_OFFSET_TABLE_".as_slice() == name {
        return Some(Bound::GotStart);
    }
    None
}

/// Where a name says that an array of functions begins or ends.
fn array_bound(name: &[u8]) -> Option<Bound>
    ensures { result ≡ option_map (λ b. b.bound) (array_named name.now) }
{
    if b"__init_array_start".as_slice() == name {
        return Some(Bound::OutputStart);
    }
    if b"__init_array_end".as_slice() == name {
        return Some(Bound::OutputEnd);
    }
    if b"__fini_array_start".as_slice() == name {
        return Some(Bound::OutputStart);
    }
    if b"__fini_array_end".as_slice() == name {
        return Some(Bound::OutputEnd);
    }
    if b"__preinit_array_start".as_slice() == name {
        return Some(Bound::OutputStart);
    }
    if b"__preinit_array_end".as_slice() == name {
        return Some(Bound::OutputEnd);
    }
    None
}

/// The output name of the sections of an array of functions, where a name says where it begins or ends.
fn array_output(name: &[u8]) -> Option<&'static [u8]>
    ensures { option_map held result ≡ option_map (λ b. b.output) (array_named name.now) }
{
    if is_either(b"__init_array_start", b"__init_array_end", name) {
        return Some(b".init_array");
    }
    if is_either(b"__fini_array_start", b"__fini_array_end", name) {
        return Some(b".fini_array");
    }
    if is_either(b"__preinit_array_start", b"__preinit_array_end", name) {
        return Some(b".preinit_array");
    }
    None
}

fn is_between(low: u8, high: u8, byte: u8) -> bool
    ensures { result ≡ linker.is_between low high byte }
{
    low <= byte && byte <= high
}

fn is_letter(byte: u8) -> bool
    ensures { result ≡ linker.is_letter byte }
{
    is_between(b'A', b'Z', byte) || is_between(b'a', b'z', byte) || byte == b'_'
}

fn is_letter_or_digit(byte: u8) -> bool
    ensures { result ≡ linker.is_letter_or_digit byte }
{
    is_letter(byte) || is_between(b'0', b'9', byte)
}

fn are_letters_or_digits(bytes: &[u8]) -> bool
    ensures { result ≡ list_all linker.is_letter_or_digit bytes.now }
{
    bytes.iter().all(|b| is_letter_or_digit(*b))
}

/// Whether bytes are an identifier of C.
fn is_identifier(bytes: &[u8]) -> bool
    ensures { result ≡ linker.is_identifier bytes.now }
{
    match bytes.split_first() {
        Some((first, rest)) => is_letter(*first) && are_letters_or_digits(rest),
        None => false,
    }
}

/// Whether a name is `__start_N` of an identifier N.
fn is_start_name(name: &[u8]) -> bool
    ensures { result ≡ linker.is_start_name name.now }
{
    match name.strip_prefix(b"__start_") {
        Some(rest) => is_identifier(rest),
        None => false,
    }
}

/// Whether a name is `__stop_N` of an identifier N.
fn is_stop_name(name: &[u8]) -> bool
    ensures { result ≡ linker.is_stop_name name.now }
{
    match name.strip_prefix(b"__stop_") {
        Some(rest) => is_identifier(rest),
        None => false,
    }
}

/// What a name stands for that the linker always defines; None where it defines nothing always.
#[tactic(auto, unfolding(elf_model::specs::Link::LinkerNames::fixed_bound))]
pub fn fixed_bound(name: &[u8]) -> Option<Bound>
    ensures { result ≡ linker.fixed_bound name.now }
{
    match edge_bound(name) {
        Some(bound) => Some(bound),
        None => array_bound(name),
    }
}

/// What `__start_N` and `__stop_N` stand for where there are sections of output name N.
#[tactic(auto, unfolding(elf_model::specs::Link::LinkerNames::output_bound))]
pub fn output_bound(name: &[u8]) -> Option<Bound>
    ensures { result ≡ linker.output_bound name.now }
{
    if is_start_name(name) {
        return Some(Bound::OutputStart);
    }
    if is_stop_name(name) {
        return Some(Bound::OutputEnd);
    }
    None
}

/// What follows the first `count` bytes of a name.
fn behind<'a>(name: &'a [u8], count: usize) -> &'a [u8]
    ensures { result.now ≡ drop count name.entry.now }
{
    match name.get(count..) {
        Some(rest) => rest,
        None => &[],
    }
}

/// The output name of which a name of the linker's speaks, where it speaks of one.
#[tactic(auto, unfolding(elf_model::specs::Link::LinkerNames::named_output))]
pub fn named_output<'a>(name: &'a [u8]) -> &'a [u8]
    ensures { result.now ≡ linker.named_output name.entry.now }
{
    match array_output(name) {
        Some(output) => output,
        None => {
            let prefix = if is_start_name(name) { 8 } else { 7 };
            behind(name, prefix)
        }
    }
}
