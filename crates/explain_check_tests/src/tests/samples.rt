//! Sections, symbols and files that several tables of rows have.
use link_samples::links::File;
use link_samples::objects::{NamedSymbol, Relocation};
use link_samples::parts::{COMMON, DATA, F, LOADER, START, TEXT, THREAD_DATA, THREAD_ZEROS, V};

pub const PLAIN: &[File] = &[File::Object("a.o", &[TEXT], &[START], &[])];

pub const WITH_DATA: &[File] = &[File::Object("a.o", &[TEXT, DATA], &[START], &[])];

/// Two objects with a `.text` each.
pub const TWO: &[File] = &[
    File::Object("a.o", &[TEXT], &[START], &[]),
    File::Object("b.o", &[TEXT], &[F], &[]),
];

/// A common `b` of no bytes, which is where `c` is.
const EMPTY_COMMON: NamedSymbol<'static> = NamedSymbol {
    name: "b",
    st_size: 0,
    ..COMMON
};

pub const WITH_TWO_COMMONS: &[File] = &[File::Object(
    "a.o",
    &[TEXT],
    &[START, EMPTY_COMMON, COMMON],
    &[],
)];

pub const WITH_COMMON: &[File] = &[File::Object("a.o", &[TEXT], &[START, COMMON], &[])];

/// An object with a slot for `v`, which its text loads by a relocation of type 42.
pub const LOADING: &[File] = &[File::Object(
    "a.o",
    &[LOADER, DATA],
    &[START, V],
    &[Relocation(1, 3, 42, 2, -4)],
)];

pub const WITH_THREAD_ZEROS: &[File] = &[File::Object(
    "a.o",
    &[TEXT, THREAD_DATA, THREAD_ZEROS],
    &[START],
    &[],
)];
