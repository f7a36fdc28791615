//! Who sees where a check fails: what was found of the link up to the first clause that fails.
ghost use Rattle.std.specs.Prelude.{◌≡◌, OnOk};
ghost use Rattle.elf_model.specs.Image.RightLink.{Holds, HoldsBefore, Subject, objects_of, where_of};
ghost use Rattle.elf_model.specs.declared.verdict.Clause.TheVariants as clause;
ghost use Rattle.check_load.specs.Views.{loaded_views};
ghost use Rattle.check_relocs.specs.Fields.{AreRows};

use check_link::Link;
use check_load::Loaded;
use check_relocs::Field;
use check_stages::{BoundLink, LoadedLink, PlacedLink};
use elf_model::Clause;
use std::alloc::AllocError;

/// Sees the stage at which the first clause that fails is judged, once at most; where the inputs don't load or the image
/// isn't one, nothing.
///
/// # Errors
///
/// Of each call only where memory is refused.
pub trait Observer<'a> {
    // What was seen is so of a link.
    ghost Saw: { Subject → Self → Type 0 };

    /// The objects that are loaded, where the second clause fails.
    fn see_objects(&mut self, link: &'a Link<'a>, objects: &[Loaded<'a>]) -> Result<(), AllocError>
        requires objects { loaded_views objects.now ≡ objects_of link.now }
        requires before { Saw link.now self.old }
        ensures { OnOk result (Saw link.entry.now self.new) };

    /// A link whose objects are loaded, where the third clause fails.
    fn see_loaded(&mut self, loaded: &LoadedLink<'_, 'a>) -> Result<(), AllocError>
        requires { Saw loaded.now self.old }
        ensures { OnOk result (Saw loaded.now self.new) };

    /// A link whose image is mapped, where the fifth or the sixth clause fails.
    fn see_placed(&mut self, clause: Clause, placed: &PlacedLink<'_, 'a>) -> Result<(), AllocError>
        requires { Saw placed.now self.old }
        ensures { OnOk result (Saw placed.now self.new) };

    /// A link whose names have their meaning, where a clause fails from the seventh on but for the tenth.
    fn see_bound(&mut self, clause: Clause, bound: &BoundLink<'_, 'a>) -> Result<(), AllocError>
        requires clauses { HoldsBefore clause bound.now }
        requires fails { ¬ Holds clause bound.now }
        requires before { Saw bound.now self.old }
        ensures { OnOk result (Saw bound.now self.new) };

    /// The same link with the fields of its relocations, where the tenth clause fails.
    fn see_fields(
        &mut self,
        bound: &BoundLink<'_, 'a>,
        rows: &[Vec<Field>],
    ) -> Result<(), AllocError>
        requires rows { AreRows (objects_of bound.now) (where_of bound.now) rows.now }
        requires before { Saw bound.now self.old }
        ensures { OnOk result (Saw bound.now self.new) };
}

/// Nobody, who sees nothing.
#[derive(Clone, Copy)]
pub struct Unobserved;

impl<'a> Observer<'a> for Unobserved {
    ghost Saw = { λ _ _. Unit {0} };

    fn see_objects(&mut self, _: &'a Link<'a>, _: &[Loaded<'a>]) -> Result<(), AllocError> {
        Ok(())
    }

    fn see_loaded(&mut self, _: &LoadedLink<'_, 'a>) -> Result<(), AllocError> {
        Ok(())
    }

    fn see_placed(&mut self, _: Clause, _: &PlacedLink<'_, 'a>) -> Result<(), AllocError> {
        Ok(())
    }

    fn see_bound(&mut self, _: Clause, _: &BoundLink<'_, 'a>) -> Result<(), AllocError> {
        Ok(())
    }

    fn see_fields(&mut self, _: &BoundLink<'_, 'a>, _: &[Vec<Field>]) -> Result<(), AllocError> {
        Ok(())
    }
}
