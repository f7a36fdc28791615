//! What takes up memory, at an address.

/// A thing that takes up memory: the headers, a piece of the output (a section or a common block), or the GOT. Address, size and alignment
/// are in bytes; rights are X 1, W 2 and R 4 in sum (System V gABI 5, "Segment Permissions"); `in_file` tells
/// whether the file has bytes for it.
#[derive(Clone, Copy, Debug)]
pub struct Thing {
    pub at: u64,
    pub size: u64,
    pub align: u64,
    pub rights: u64,
    pub in_file: bool,
}
