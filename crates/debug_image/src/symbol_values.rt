//! What a symbol stands for in debug data.

/// The value of a symbol as relocations of debug data want it.
#[derive(Clone, Copy, Debug)]
pub enum SymbolValue {
    /// Its address, its offset in what is joined of debug data, or its absolute value.
    Known(u64),
    /// It is the address of what isn't in the image.
    NoAddress,
    /// It is a place in debug data that aren't in the image.
    NoData,
}
