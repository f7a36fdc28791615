//! The block of thread-local storage.

/// The block that each thread gets a copy of: its first address, and its size and alignment in bytes (System V
/// gABI 5, "Program Header", PT_TLS).
#[derive(Clone, Copy, Debug)]
pub struct TlsBlock {
    pub start: u64,
    pub size: u64,
    pub align: u64,
}
