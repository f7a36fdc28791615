//! The tests, and what they are made of.
mod archives;
mod groups;
mod memories;
mod names;
mod objects;
mod plans;
mod records;
mod texts;
mod views;
mod words;
