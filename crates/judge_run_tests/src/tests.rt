//! The tests, and what they are made of.
mod answers;
mod machine;
mod samples;
