//! The tests, and what they are made of.
mod bytes;
mod lines;
mod map_lines;
mod offset_tables;
mod other_links;
mod relocations;
mod samples;
mod symbol_tables;
mod thread_blocks;
mod wrong_places;
