//! The tests, and what they are made of.
mod debug_data;
mod dropped_groups;
mod found;
mod kept_groups;
mod left_data;
mod long_names;
mod names;
mod rows;
mod sections;
mod tables;
mod values;
mod vectors;
