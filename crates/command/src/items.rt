//! What a command asks for: its items and its plan.
use std::marker::Model;

/// What an item of a command names.
#[derive(Clone, Copy, Debug)]
pub enum Source<'a> {
    /// A path, as the word spells it.
    Path(&'a str),
    /// The NAME of `-lNAME`.
    Library(&'a str),
}

/// A file of the link, in command order.
#[derive(Clone, Copy, Debug)]
pub struct Item<'a> {
    pub source: Source<'a>,
    /// Read as an archive: a library, or a path that ends in `.a`.
    pub archive: bool,
    /// Under `--whole-archive`.
    pub whole: bool,
    /// The number of its group, counted from 0 in command order.
    pub group: Option<u64>,
}

/// What a command asks for. Texts are borrowed from the words.
#[derive(Debug, Drop)]
pub struct Plan<'a> {
    pub items: Vec<Item<'a>>,
    /// The directories of `-L`, in command order.
    pub directories: Vec<&'a str>,
    /// The names of `-u`, in command order.
    pub undefined: Vec<&'a str>,
    /// The entry's name.
    pub entry: &'a str,
    /// The address at which the image begins.
    pub base: u64,
    /// The path of the image.
    pub output: &'a str,
    /// The path of the map.
    pub map: Option<&'a str>,
    /// Check an image in place of linking one.
    pub check: bool,
    /// `-s`: the image has no symbol table.
    pub strip: bool,
}

impl<'a> Model for Plan<'a> {
    ghost use Rattle.elf_model.specs.Inputs.Command as command;
    ghost use Rattle.command.specs.Views.{plan_of};

    ghost Value = { command.Plan };

    ghost view = { λ p. plan_of p.items.items p.directories.items p.undefined.items p.entry p.base p.output p.map p.check p.strip };
}
