//! The tests, and what they are made of.
mod archives;
mod faults;
mod loading;
mod meanings;
mod objects;
mod places;
mod thread_storage;
mod values;
