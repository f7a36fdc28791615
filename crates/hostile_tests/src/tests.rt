//! The tests, and what they are made of.
mod images;
mod inputs;
mod maps;
mod numbers;
mod samples;
