//! The tests, and what they are made of.
mod archives;
mod common_blocks;
mod groups;
mod linker_names;
mod weak_names;
