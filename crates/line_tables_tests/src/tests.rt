//! The tests, and what they are made of.
mod compilers;
mod hostile;
mod objects;
mod samples;
