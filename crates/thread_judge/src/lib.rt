//! Whether PT_TLS of an image says where the thread-local sections of a link are (ELF Handling For Thread-Local Storage).
#![tactic(auto)]

mod blocks;
mod parts;

pub use blocks::is_thread_block_right;
pub use parts::are_low;
