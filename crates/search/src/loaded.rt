//! What a command loads: its plan, the loaded objects in load order, and the numbers of their symbols' names, as one value
//! that the layers above share.
ghost use Rattle.std.specs.Prelude.{◌≡◌, IfOk};
ghost use Rattle.search.specs.KeptLists.{kept_in, relas_in};

use crate::kept_lists::KeptLists;
use crate::names::NameSet;
use comdat::Dropped;
use command::Plan;
use elf_model::{NameSeed, SymbolRef};
use elf_read::ObjectFile;
use std::alloc::{AllocError, Global};
use std::marker::Model;
use std::rc::Rc;

/// The number that stands for the name of a LOCAL symbol, which has none.
pub const NO_NUMBER: usize = 0xffff_ffff_ffff_ffff;

/// A loaded object.
#[derive(Drop)]
pub struct LoadedObject<'a> {
    /// What its bytes hold.
    pub object: ObjectFile<'a>,
    /// The number of its item in the command.
    pub item: u64,
    /// The offset of its member's header in the archive; 0 for an object item.
    pub offset: u64,
    /// The path of its file.
    pub path: &'a str,
    /// Its dropped sections.
    pub dropped: Dropped,
    /// The number of each symbol's name; NO_NUMBER where the symbol is LOCAL.
    pub numbers: Vec<usize>,
    /// Lists of what is kept of it.
    pub(crate) kept: KeptLists,
    ghost sections_are: { kept.sections.items ≡ kept_in object dropped },
    ghost relas_are: { kept.relas.items ≡ relas_in object dropped },
}

/// A plan, the objects, and the names that have numbers.
#[derive(Drop)]
struct Contents<'a> {
    plan: Plan<'a>,
    objects: Vec<LoadedObject<'a>>,
    names: NameSet<'a>,
}

/// The plan of a command and the objects that it loads, in load order. A clone shares both. Each name of a symbol that isn't
/// LOCAL has a number, from 0 on.
#[derive(Drop)]
pub struct Loaded<'a> {
    contents: Rc<Contents<'a>>,
}

impl<'a> Model for Loaded<'a> {
    ghost use Rattle.search.specs.Loads.{LoadedPlan};

    ghost Value = { LoadedPlan };

    ghost use Rattle.elf_model.specs.Link.Loading.{AreObjects};
    ghost use Rattle.search.specs.Views.{loaded_views};
    ghost use Rattle.search.specs.Numbers.{AreWhole};

    ghost view = { λ l. record { plan = l.contents.value.plan; objects = loaded_views l.contents.value.objects.items; names = l.contents.value.names } };

    ghost invariant = { λ l. AreWhole l.contents.value.names l.contents.value.objects.items };
}

impl<'a> Clone for Loaded<'a> {
    ghost use Rattle.std.specs.Prelude.{◌≡◌};

    ghost is_clone = { λ l copy. copy ≡ l };

    fn clone(&self) -> Result<Loaded<'a>, AllocError> {
        Ok(Loaded {
            contents: self.contents.clone()?,
        })
    }
}

/// A plan again, with room of its own for its lists.
///
/// # Errors
///
/// Only where memory is refused.
fn plan_again<'a>(alloc: Global, plan: &Plan<'a>) -> Result<Plan<'a>, AllocError>
    ensures { IfOk result (λ p. p ≡ plan.now) }
{
    Ok(Plan {
        items: Vec::from_slice(alloc, &plan.items)?,
        directories: Vec::from_slice(alloc, &plan.directories)?,
        undefined: Vec::from_slice(alloc, &plan.undefined)?,
        entry: plan.entry,
        base: plan.base,
        output: plan.output,
        map: plan.map,
        check: plan.check,
        strip: plan.strip,
    })
}

impl<'a> Loaded<'a> {
    ghost use Rattle.std.specs.Prelude.{◌≡◌, ◌<◌, [], IfOk, IfSome, length, slice_index_or};
    ghost use Rattle.std.specs.List.{position};
    ghost use Rattle.std.specs.Str.{bytes_eq};
    ghost use Rattle.elf_model.specs.Link.Loading.{AreObjects};
    ghost use Rattle.search.specs.Numbers.{AreNamed, AreNumbered, AreWhole, name_number, stored_number};
    ghost use Rattle.search.specs.Views.{loaded_views};

    /// The number that is kept for a symbol of an object; None where there is no such symbol.
    fn stored_number(objects: &[LoadedObject<'_>], object: usize, symbol: usize) -> Option<usize>
        ensures { result ≡ stored_number objects.now object symbol }
    {
        let loaded = objects.get(object)?;
        loaded.numbers.get(symbol).copied()
    }

    /// A plan, and objects that were loaded, whose names have numbers.
    ///
    /// # Errors
    ///
    /// Only where memory is refused.
    pub fn new(
        alloc: Global,
        plan: &Plan<'a>,
        objects: Vec<LoadedObject<'a>>,
        names: NameSet<'a>,
    ) -> Result<Loaded<'a>, AllocError>
        requires { AreWhole names objects.items }
        ensures plan { IfOk result (λ l. l.plan ≡ plan.now) }
        ensures objects { IfOk result (λ l. l.objects ≡ loaded_views objects.entry.items) }
    {
        let plan = plan_again(alloc, plan)?;
        match Rc::new(
            alloc,
            Contents {
                plan,
                objects,
                names,
            },
        ) {
            Ok(contents) => Ok(Loaded { contents }),
            Err(_refused) => Err(AllocError),
        }
    }

    /// The plan.
    pub fn plan(&self) -> &Plan<'a>
        ensures { result.now ≡ self.now.plan }
    {
        &self.contents.plan
    }

    /// The loaded objects, in load order.
    pub fn objects(&self) -> &[LoadedObject<'a>]
        ensures exact { loaded_views result.now ≡ self.now.objects }
        ensures objects { AreObjects self.now.objects }
        ensures numbered { AreNumbered self.now.names result.now }
    {
        self.contents.objects.as_slice()
    }

    /// The seed from which names are hashed.
    pub fn name_seed(&self) -> NameSeed {
        self.contents.names.seed()
    }

    /// How many names have numbers.
    pub fn name_count(&self) -> usize
        ensures count { result ≡ length self.now.names }
        ensures named { AreNamed self.now }
    {
        let _contents = &self.contents;
        self.contents.names.len()
    }

    /// The number of the name of a symbol; None where the symbol is LOCAL, or where there is no such symbol.
    pub fn name_number(&self, symbol: SymbolRef) -> Option<usize>
        ensures number { result ≡ name_number self.now symbol.object.0 symbol.symbol }
        ensures within { IfSome result (λ n. n < length self.now.names) }
    {
        let _count = self.name_count();
        let object = symbol.object.0 as usize;
        let number = Loaded::stored_number(self.objects(), object, symbol.symbol as usize)?;
        if number == NO_NUMBER {
            return None;
        }
        Some(number)
    }

    /// The number of a name; None where it has none.
    pub fn find_name(&self, name: &[u8]) -> Option<usize>
        ensures { result ≡ position (bytes_eq name.now) self.now.names }
    {
        self.contents.names.find(name)
    }

    /// The name that has a number; the empty one where none has it.
    pub fn name(&self, number: usize) -> &'a [u8]
        ensures { result.now ≡ slice_index_or self.now.names number [] }
    {
        self.contents.names.get(number)
    }
}
