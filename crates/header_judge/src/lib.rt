//! Whether the headers of an image give a program no more rights than its link does (System V gABI 5, "Program Header";
//! PT_GNU_RELRO and PT_GNU_STACK are those of GNU). That they are those of a program, `foreign_image` says.
#![tactic(auto)]

mod early_names;
mod headers;
mod protected;
mod stack;

pub use early_names::is_gathered;
pub use headers::are_headers_right;
