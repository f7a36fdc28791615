//! The tests, and what they are made of.
mod bad_objects;
mod hints;
mod lines;
mod notes;
mod references;
mod refused_links;
mod source_lines;
