//! Objects and archives made of their parts, links of them as rows of tables, each checked, and one link byte for byte:
//! what the tests of links need.
#![tactic(auto)]

pub mod archives;
pub mod links;
pub mod objects;
pub mod one_object;
pub mod parts;
pub mod several_objects;
pub mod vectors;
