//! A piece of which memory is made.
use elf_model::SectionHeader;

/// A kept section of a loaded object: its object's and its own number, its header, its name and its input
/// bytes (none for NOBITS). Or a common block, which has the header of a section without bytes that may be written. Or
/// the GOT, which has that of one with bytes; what these are isn't known here.
#[derive(Clone, Copy, Debug)]
pub struct Piece<'a> {
    pub object: u64,
    pub section: u64,
    pub header: SectionHeader,
    pub name: &'a [u8],
    pub bytes: &'a [u8],
}
