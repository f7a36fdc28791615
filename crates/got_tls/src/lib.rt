//! The GOT and thread-local storage: which slots the relocations of loaded objects ask for, the block of
//! the pieces with SHF_TLS, and offsets from the thread pointer (AMD64 psABI 4.4; ELF Handling For
//! Thread-Local Storage, variant II).
//!
//! Begin with `slots`.
#![tactic(auto)]

mod asked_slots;
mod requests;
mod slot;
mod slot_index;
mod slot_list;
mod slot_table;
mod thread_storage;

pub use asked_slots::{Asked, add_entry};
pub use elf_model::TlsBlock;
pub use reloc_values::{Formula, Kind, Range, slot_kind, thread_pointer, tp_offset};
pub use requests::Asker;
pub use slot::Slot;
pub use slot_list::{slots, slots_asked};
pub use slot_table::Slots;
pub use thread_storage::tls_block;
