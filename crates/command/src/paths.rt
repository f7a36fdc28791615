//! The files that a plan may read.
ghost use Rattle.std.specs.Prelude.{◌≡◌, [], map, drop, ◌++◌, codes, IfOk, OnOk, IfErr, string_bytes};
ghost use Rattle.std.specs.List.{flat_map};
ghost use Rattle.elf_model.specs.Inputs.Command.{library_paths, paths_of, candidates_of};
ghost use Rattle.elf_model.specs.Inputs.Files.{words_of};
ghost use Rattle.command.specs.Views.{source_of, item_of, texts_of};
ghost use Rattle.command.specs.Candidates.{with, with_all};

use crate::items::{Item, Plan, Source};
use elf_model::CmdFault;
use std::alloc::{AllocError, Global};
use std::collections::BTreeSet;
use std::marker::Model;

/// Paths in the order in which they first came, without repeats.
#[derive(Drop)]
struct Found {
    paths: Vec<String>,
    seen: BTreeSet<String>,
}

impl Model for Found {
    ghost use Rattle.std.specs.Prelude.{List, ℕ};
    ghost use Rattle.command.specs.Candidates.{HasTexts};
    ghost use Rattle.elf_model.specs.Inputs.Files.{words_of};

    ghost Value = { List (List ℕ) };

    ghost view = { λ f. words_of f.paths.items };

    ghost invariant = { λ f. HasTexts f.seen (words_of f.paths.items) };
}

impl Found {
    fn new(alloc: Global) -> Found
        ensures { result ≡ [] }
    {
        Found {
            paths: Vec::new(alloc),
            seen: BTreeSet::new(alloc),
        }
    }

    fn add(&mut self, path: String) -> Result<(), AllocError>
        ensures { OnOk result (self.new ≡ with self.old (string_bytes path)) }
    {
        self.paths.reserve(1)?;
        if self.seen.insert(path.clone()?)? {
            self.paths.push(path)?;
        }
        Ok(())
    }
}

/// The path that `-lNAME` means in a directory, `DIRECTORY/libNAME.a`.
///
/// # Errors
/// Where the path can't grow.
pub fn library_path(alloc: Global, directory: &str, name: &str) -> Result<String, AllocError>
    ensures { IfOk result (λ s. string_bytes s
        ≡ directory.now ++ (codes "/lib" ++ (name.now ++ codes ".a"))) }
{
    format!(in alloc; "{directory}/lib{name}.a")
}

/// Adds the paths that `-lNAME` may mean.
fn add_library(
    alloc: Global,
    found: &mut Found,
    directories: &[&str],
    name: &str,
) -> Result<(), AllocError>
    ensures { OnOk result (found.new
        ≡ with_all found.old (library_paths (texts_of directories.now) name.now)) }
{
    for directory in directories {
        found.add(library_path(alloc, directory, name)?)?;
    }
    Ok(())
}

/// Adds the paths that an item may mean.
fn add_source(
    alloc: Global,
    found: &mut Found,
    directories: &[&str],
    source: Source<'_>,
) -> Result<(), AllocError>
    ensures { OnOk result (found.new
        ≡ with_all found.old (paths_of (texts_of directories.now) (source_of source.entry))) }
{
    match source {
        Source::Path(path) => found.add(String::from_str(alloc, path)?)?,
        Source::Library(name) => add_library(alloc, found, directories, name)?,
    }
    Ok(())
}

/// Adds the paths that items may mean.
fn add_items(
    alloc: Global,
    found: &mut Found,
    directories: &[&str],
    items: &[Item<'_>],
) -> Result<(), AllocError>
    ensures { OnOk result (found.new
        ≡ with_all found.old
        (flat_map (λ i. paths_of (texts_of directories.now) (source_of i.source)) items.now)) }
{
    for item in items {
        add_source(alloc, found, directories, item.source)?;
    }
    Ok(())
}

/// The files that a plan may read, in command order and without repeats: each file item's path, and for
/// each `-lNAME` every `DIR/libNAME.a`.
///
/// # Errors
/// Memory where the list can't grow.
pub fn candidates(alloc: Global, plan: &Plan<'_>) -> Result<Vec<String>, CmdFault>
    ensures paths { IfOk result (λ v. words_of v.items ≡ candidates_of plan.now) }
    ensures fault { IfErr result (λ f. f ≡ CmdFault.Memory) }
{
    let mut found = Found::new(alloc);
    add_items(alloc, &mut found, &plan.directories, &plan.items)?;
    let Found { paths, seen: _ } = found;
    Ok(paths)
}
