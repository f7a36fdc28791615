//! Where a check says no: the link is read, checked once more, and the places of the first clause that fails are told. They
//! are found where the check sees it fail.
ghost use Rattle.std.specs.Prelude.{◌≡◌, ◌<◌, ◌≤◌, ℕ, [], All, IfOk, IfSome, List, length};
ghost use Rattle.elf_model.specs.Inputs.Files.{files_of, words_of};
ghost use Rattle.elf_model.specs.Image.RightLink.{Holds, IsRead};
ghost use Rattle.elf_model.specs.declared.verdict.Clause as verdict;
ghost use Rattle.explain_check.specs.Places.{AreFailures, FailsAt, IsFirst, clause_of};

use crate::found::{Added, Found};
use check_link::{Link, read_map, read_plan};
use check_load::Loaded;
use check_relocs::Field;
use checker::{BoundLink, LoadedLink, Observer, PlacedLink, judge};
use elf_model::{Clause, InputFile, Verdict};
use std::alloc::{AllocError, Global};

impl<'a> Observer<'a> for Found<'a> {
    ghost use Rattle.explain_check.specs.Places.{AreFailures};

    ghost Saw = { λ s found. AreFailures s found.places.items };

    fn see_objects(&mut self, link: &'a Link<'a>, objects: &[Loaded<'a>]) -> Added {
        self.add_c2(link, objects)
    }

    fn see_loaded(&mut self, loaded: &LoadedLink<'_, 'a>) -> Added {
        self.add_c3(loaded)
    }

    fn see_placed(&mut self, clause: Clause, placed: &PlacedLink<'_, 'a>) -> Added {
        match clause {
            Clause::C5 => self.add_c5(placed),
            _ => self.add_c6(placed),
        }
    }

    fn see_bound(&mut self, clause: Clause, bound: &BoundLink<'_, 'a>) -> Added {
        match clause {
            Clause::C7 => self.add_c7(bound),
            Clause::C8 => self.add_c8(bound),
            Clause::C9 => self.add_c9(bound),
            Clause::C11 => self.add_c11(bound),
            Clause::C12 => self.add_c12(bound),
            Clause::C13 => self.add_c13(bound),
            Clause::C14 => self.add_c14(bound),
            _ => Ok(()),
        }
    }

    fn see_fields(&mut self, bound: &BoundLink<'_, 'a>, rows: &[Vec<Field>]) -> Added {
        self.add_c10(bound, rows)
    }
}

/// The link that words, files, an image and a map's text make; None where the words are no command or the text is no
/// map's: the first clause.
///
/// # Errors
///
/// Only where memory is refused.
pub fn read_link<'a>(
    alloc: Global,
    files: &'a [InputFile],
    words: &'a [String],
    image: &'a [u8],
    map: &'a [u8],
) -> Result<Option<Link<'a>>, AllocError>
    ensures read { IfOk result (λ o.
        IfSome o (λ l. IsRead (words_of words.entry.now) map.entry.now l)) }
    ensures files { IfOk result (λ o. IfSome o (λ l. l.files ≡ files_of files.entry.now)) }
    ensures image { IfOk result (λ o. IfSome o (λ l. l.image ≡ image.entry.now)) }
{
    let Some(plan) = read_plan(alloc, words)? else {
        return Ok(None);
    };
    let Some(map) = read_map(alloc, map)? else {
        return Ok(None);
    };
    Ok(Some(Link {
        plan,
        parts: &[],
        files,
        image,
        map,
    }))
}

/// Where a link that was read is not right: the first places at which the first clause that fails does so, at most so many,
/// and how many more there are; where no place is told, the clause as a whole. None where it is right.
///
/// # Errors
///
/// Only where memory is refused.
pub fn explain_check<'a>(
    alloc: Global,
    link: &'a Link<'a>,
    most: usize,
) -> Result<Found<'a>, AllocError>
    ensures fails { IfOk result (λ f. AreFailures link.entry.now f.places.items) }
    ensures first { IfOk result (λ f.
        All (λ p. IsFirst link.entry.now (clause_of p)) f.places.items) }
    ensures few { IfOk result (λ f. length f.places.items ≤ most) }
    ensures some { IfOk result (λ f. 0 < most → length f.places.items ≡ 0
        → (c : verdict.Clause) → Holds c link.entry.now) }
    ensures read { (words : List (List ℕ)) (bytes : List ℕ) →
        IsRead words bytes link.entry.now
        → IfOk result (λ f.
        All (FailsAt link.entry.now.files words link.entry.now.image bytes) f.places.items) }
{
    let mut found = Found::new(alloc, most);
    match judge(alloc, link, None, &mut found)? {
        Verdict::Yes => Ok(Found::new(alloc, most)),
        Verdict::No(clause) => found.of_clause(clause, most),
    }
}
