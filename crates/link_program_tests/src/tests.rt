//! The tests, and what they are made of.
mod clauses;
mod fills;
mod numbered_arrays;
mod plain_links;
mod program;
mod streams;
mod symbol_tables;
mod tables;
