//! The tests, and what they are made of.
mod global_offsets;
mod many_slots;
mod output_names;
mod thread_local;
