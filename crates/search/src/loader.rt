//! The objects that are loaded so far, and what loading has to know of them.
ghost use Rattle.std.specs.Prelude.{◌≡◌, ◌==◌, ◌<◌, ◌&&◌, ◌||◌, false, true, not, ℕ, List, [], ◌∷◌, IfErr, IfOk, OnOk, length, option_copied, slice_get, slice_index, string_bytes};
ghost use Rattle.std.specs.List.{list_any};
ghost use Rattle.std.specs.Str.{bytes_eq};
ghost use Rattle.command.specs.Views.{texts_of};
ghost use Rattle.elf_model.specs.Link.Groups.{AreLawfulGroups};
ghost use Rattle.elf_model.specs.Link.Loading.{is_begun, is_definition, is_global_or_weak, is_global_symbol, is_left_undefined, is_request, is_taken, needed, object_behind, with_object};
ghost use Rattle.elf_model.specs.Inputs.ObjectFile.{IsObject, groups, symbols};
ghost use Rattle.search.specs.Faults.{FailsAt, IsReached};
ghost use Rattle.search.specs.Loaders.{Knows, asked_in, defined_in, loaded};
ghost use Rattle.search.specs.Mentions.{AreNoted, has_definition, mention_of};
ghost use Rattle.search.specs.Names.{Begins, is_among, number_of, with_name};
ghost use Rattle.search.specs.Numbers.{AreFirstNumbers, AreWhole};
ghost use Rattle.opening.specs.Opened.{item_view};
ghost use Rattle.search.specs.Views.{loaded_views};

use crate::faults::{SearchFault, group_fault, object_fault};
use crate::kept_lists::kept_lists;
use crate::loaded::{LoadedObject, NO_NUMBER};
use crate::names::{NameList, NameNumbers};
use crate::taken_members::Taken;
use byteview::View;
use comdat::{Dropped, Groups};
use command::Plan;
use elf_model::{NameSeed, Symbol};
use elf_read::ObjectFile;
use opening::OpenedItem;
use std::alloc::{AllocError, Global};

/// What is known of a name: whether the command or a loaded object asks for it, and whether one defines it.
#[derive(Clone, Copy, Debug)]
pub struct Mention {
    pub requested: bool,
    pub defined: bool,
}

const NO_MENTION: Mention = Mention {
    requested: false,
    defined: false,
};

/// The names of the command and of the symbols of loaded objects that aren't LOCAL, each with a number.
#[derive(Drop)]
pub struct Names<'a, N> {
    /// Those that are asked for, in the order in which they were.
    requested: NameList<'a>,
    numbers: N,
    /// What is known of the name that has a number.
    mentions: Vec<Mention>,
}

/// An object that loading has come to.
#[derive(Clone, Copy, Debug)]
pub struct Reached<'a> {
    /// The number of its item in the command, from 0.
    pub item: u64,
    /// The path of its file.
    pub path: &'a str,
    /// The offset of its member's header in the archive; 0 for an object item.
    pub offset: u64,
    pub bytes: &'a [u8],
}

/// An object that can't be loaded, and why.
#[derive(Clone, Copy, Debug)]
pub struct RefusedObject<'a> {
    pub at: Reached<'a>,
    pub fault: SearchFault,
}

/// The loaded objects of a plan so far.
#[derive(Drop)]
pub struct Loader<'p, 'a, N> {
    plan: &'p Plan<'a>,
    /// From which names are hashed.
    seed: NameSeed,
    /// The object that loading has come to last.
    reached: Option<Reached<'a>>,
    objects: Vec<LoadedObject<'a>>,
    groups: Groups<'a>,
    names: Names<'a, N>,
    taken: Taken,
}

fn is_global_or_weak(symbol: &Symbol) -> bool
    ensures { result ≡ is_global_or_weak symbol.now }
{
    symbol.is_global() || symbol.is_weak()
}

/// Whether a symbol is undefined, or stands in a dropped section.
fn is_left_undefined(dropped: &Dropped, symbol: &Symbol) -> bool
    ensures { result ≡ is_left_undefined dropped.now symbol.now }
{
    symbol.is_undefined() || dropped.has(usize::from(symbol.st_shndx))
}

impl<'a, N: NameNumbers<'a>> Names<'a, N> {
    /// The number of a name, which gets one where it has none.
    fn number(&mut self, name: &'a [u8]) -> Result<usize, AllocError>
        requires { AreNoted N.names self.old }
        ensures noted { OnOk result (AreNoted N.names self.new) }
        ensures added { OnOk result (N.names self.new.numbers
            ≡ with_name (N.names self.old.numbers) name.now) }
        ensures number { IfOk result (λ i. i ≡ number_of (N.names self.new.numbers) name.now) }
        ensures there { OnOk result (is_among (N.names self.new.numbers) name.now ≡ true) }
        ensures requested { OnOk result (self.new.requested ≡ self.old.requested) }
        ensures defined { OnOk result ((n : List ℕ) →
            has_definition N.names self.new n ≡ has_definition N.names self.old n) }
    {
        let number = self.numbers.add(name)?;
        if number == self.mentions.len() {
            self.mentions.push(NO_MENTION)?;
        }
        Ok(number)
    }

    /// Notes that a name, which has a number, is asked for.
    fn request(&mut self, name: &'a [u8], number: usize) -> Result<(), AllocError>
        requires noted { AreNoted N.names self.old }
        requires there { is_among (N.names self.old.numbers) name.now ≡ true }
        requires number { number ≡ number_of (N.names self.old.numbers) name.now }
        ensures noted { OnOk result (AreNoted N.names self.new) }
        ensures numbers { OnOk result (self.new.numbers ≡ self.old.numbers) }
        ensures requested { OnOk result ((n : List ℕ) →
            is_among self.new.requested n
            ≡ (bytes_eq name.now n || is_among self.old.requested n)) }
        ensures grows { OnOk result (Begins self.old.requested self.new.requested) }
        ensures defined { OnOk result ((n : List ℕ) →
            has_definition N.names self.new n ≡ has_definition N.names self.old n) }
    {
        if self.mentions[number].requested {
            return Ok(());
        }
        self.requested.push(name)?;
        self.mentions[number].requested = true;
        Ok(())
    }

    /// Notes that a name, which has a number, is defined.
    fn define(&mut self, number: usize, name: &[u8])
        requires noted { AreNoted N.names self.old }
        requires there { is_among (N.names self.old.numbers) name.now ≡ true }
        requires number { number ≡ number_of (N.names self.old.numbers) name.now }
        ensures noted { AreNoted N.names self.new }
        ensures numbers { self.new.numbers ≡ self.old.numbers }
        ensures requested { self.new.requested ≡ self.old.requested }
        ensures defined { (n : List ℕ) →
            has_definition N.names self.new n
            ≡ (bytes_eq name.now n || has_definition N.names self.old n) }
    {
        self.mentions[number].defined = true;
    }

    /// Notes that the command asks for a name.
    fn add_root(&mut self, name: &'a [u8]) -> Result<(), AllocError>
        requires { AreNoted N.names self.old }
        ensures noted { OnOk result (AreNoted N.names self.new) }
        ensures requested { OnOk result ((n : List ℕ) →
            is_among self.new.requested n
            ≡ (bytes_eq name.now n || is_among self.old.requested n)) }
        ensures defined { OnOk result ((n : List ℕ) →
            has_definition N.names self.new n ≡ has_definition N.names self.old n) }
    {
        let number = self.number(name)?;
        self.request(name, number)
    }

    /// Notes that the command asks for its entry's name, and for those of `-u`.
    fn add_roots(&mut self, entry: &'a str, undefined: &[&'a str]) -> Result<(), AllocError>
        requires noted { AreNoted N.names self.old }
        requires none { self.old.requested ≡ [] }
        ensures noted { OnOk result (AreNoted N.names self.new) }
        ensures requested { OnOk result ((n : List ℕ) →
            is_among self.new.requested n
            ≡ list_any (λ root. bytes_eq root n) (entry.now ∷ texts_of undefined.now)) }
        ensures defined { OnOk result ((n : List ℕ) →
            has_definition N.names self.new n ≡ has_definition N.names self.old n) }
    {
        self.add_root(entry.as_bytes())?;
        for root in undefined {
            self.add_root(root.as_bytes())?;
        }
        Ok(())
    }

    /// Whether a name is asked for and not defined.
    fn is_missing(&self, name: &'a [u8]) -> bool
        requires { AreNoted N.names self.now }
        ensures { result ≡ (is_among self.now.requested name.now
            && not (has_definition N.names self.now name.now)) }
    {
        match self.numbers.number(name) {
            Some(number) => self.mentions[number].requested && !self.mentions[number].defined,
            None => false,
        }
    }

    /// Notes the name of a symbol that isn't LOCAL, where it asks for a definition or is one, and answers its number.
    fn note(
        &mut self,
        dropped: &Dropped,
        symbol: &Symbol,
        name: &'a [u8],
    ) -> Result<usize, AllocError>
        requires noted { AreNoted N.names self.old }
        requires shared { is_global_or_weak symbol.now ≡ true }
        ensures noted { OnOk result (AreNoted N.names self.new) }
        ensures requested { OnOk result ((n : List ℕ) →
            is_among self.new.requested n
            ≡ (bytes_eq name.now n && is_request dropped.now symbol.now
            || is_among self.old.requested n)) }
        ensures defined { OnOk result ((n : List ℕ) →
            has_definition N.names self.new n
            ≡ (bytes_eq name.now n && is_definition dropped.now symbol.now
            || has_definition N.names self.old n)) }
        ensures grows { OnOk result (Begins self.old.requested self.new.requested) }
        ensures added { OnOk result (N.names self.new.numbers
            ≡ with_name (N.names self.old.numbers) name.now) }
        ensures number { IfOk result (λ i. i ≡ number_of (N.names self.new.numbers) name.now) }
        ensures there { OnOk result (is_among (N.names self.new.numbers) name.now ≡ true) }
    {
        let number = self.number(name)?;
        if !is_left_undefined(dropped, symbol) {
            self.define(number, name);
            return Ok(number);
        }
        if symbol.is_global() {
            self.request(name, number)?;
        }
        Ok(number)
    }

    /// Notes the names of the symbols of an object, and answers their numbers.
    fn note_all(
        &mut self,
        alloc: Global,
        object: &ObjectFile<'a>,
        dropped: &Dropped,
    ) -> Result<Vec<usize>, AllocError>
        requires { AreNoted N.names self.old }
        ensures noted { OnOk result (AreNoted N.names self.new) }
        ensures requested { OnOk result ((n : List ℕ) →
            is_among self.new.requested n
            ≡ (asked_in object.now dropped.now n || is_among self.old.requested n)) }
        ensures defined { OnOk result ((n : List ℕ) →
            has_definition N.names self.new n
            ≡ (defined_in object.now dropped.now n || has_definition N.names self.old n)) }
        ensures grows { OnOk result (Begins self.old.requested self.new.requested) }
        ensures added { OnOk result (Begins (N.names self.old.numbers) (N.names self.new.numbers)) }
        ensures numbers { IfOk result (λ v.
            AreFirstNumbers (length (symbols object.now))
            (N.names self.new.numbers) object.now v.items) }
    {
        let symbols = object.symbols();
        let mut numbers = Vec::with_capacity(alloc, symbols.len())?;
        for j in 0..symbols.len() {
            let symbol = symbols.at(j);
            if !is_global_or_weak(&symbol) {
                numbers.push(NO_NUMBER)?;
                continue;
            }
            let number = self.note(dropped, &symbol, object.symbol_name(j))?;
            numbers.push(number)?;
        }
        Ok(numbers)
    }
}

/// Reads an object, with its fault as one of loading.
fn read_object<'a>(alloc: Global, bytes: &'a [u8]) -> Result<ObjectFile<'a>, SearchFault>
    ensures exact { IfOk result (λ o. o ≡ bytes.entry.now) }
    ensures object { OnOk result (IsObject bytes.entry.now) }
    ensures fault { IfErr result (FailsAt bytes.entry.now) }
{
    match ObjectFile::read(alloc, View::new(bytes)) {
        Ok(object) => Ok(object),
        Err(fault) => Err(object_fault(fault)),
    }
}

impl<'p, 'a, N: NameNumbers<'a> + Drop> Loader<'p, 'a, N> {
    /// Nothing of a plan is loaded, and no name has a number. Names are hashed from a seed.
    pub fn new(
        alloc: Global,
        plan: &'p Plan<'a>,
        seed: NameSeed,
        numbers: N,
    ) -> Result<Loader<'p, 'a, N>, AllocError>
        requires { N.names numbers ≡ [] }
        ensures plan { IfOk result (λ l. l.plan.now ≡ plan.entry.now) }
        ensures loaded { IfOk result (λ l. loaded l ≡ []) }
        ensures known { IfOk result (Knows N.names) }
    {
        let mut names: Names<'a, N> = Names {
            requested: NameList::new(alloc),
            numbers,
            mentions: Vec::new(alloc),
        };
        names.add_roots(plan.entry, &plan.undefined)?;
        Ok(Loader {
            plan,
            seed,
            reached: None,
            objects: Vec::new(alloc),
            groups: Groups::seeded(alloc, seed),
            names,
            taken: Taken::new(alloc),
        })
    }

    /// The objects that are loaded, in load order, and the numbers of names.
    pub fn into_parts(self) -> (Vec<LoadedObject<'a>>, N)
        requires { Knows N.names self }
        ensures loaded { loaded_views result.0.items ≡ loaded self.entry }
        ensures whole { AreWhole (N.names result.1) result.0.items }
    {
        let Loader { objects, names, .. } = self;
        let Names { numbers, .. } = names;
        (objects, numbers)
    }
}

impl<'p, 'a, N: NameNumbers<'a>> Loader<'p, 'a, N> {
    /// The seed from which names are hashed.
    pub fn seed(&self) -> NameSeed {
        self.seed
    }

    /// Loads an object of an item, from the offset of its member's header.
    pub fn add(
        &mut self,
        alloc: Global,
        item: &OpenedItem<'a>,
        offset: u64,
        bytes: &'a [u8],
    ) -> Result<(), SearchFault>
        requires { Knows N.names self.old }
        ensures plan { OnOk result (self.new.plan.now ≡ self.old.plan.now) }
        ensures loaded { OnOk result (loaded self.new
            ≡ with_object (loaded self.old) (item_view item.now) offset bytes.now) }
        ensures known { OnOk result (Knows N.names self.new) }
        ensures grows { OnOk result (Begins self.old.names.requested self.new.names.requested) }
        ensures reached { IsReached self.new.reached
            (object_behind (loaded self.old) (item_view item.now) offset bytes.now) }
        ensures fault { IfErr result (FailsAt bytes.now) }
    {
        self.reached = Some(Reached {
            item: item.number,
            path: item.path,
            offset,
            bytes,
        });
        let object = read_object(alloc, bytes)?;
        let dropped = match self.groups.admit(&object) {
            Ok(dropped) => dropped,
            Err(fault) => return Err(group_fault(fault)),
        };
        let numbers = self.names.note_all(alloc, &object, &dropped)?;
        let kept = kept_lists(alloc, &object, &dropped)?;
        self.taken.add(item.number, offset)?;
        self.objects.push(LoadedObject {
            object,
            item: item.number,
            offset,
            path: item.path,
            dropped,
            numbers,
            kept,
        })?;
        Ok(())
    }

    /// Whether a member of an item is next where its name is that of an entry of the index.
    pub fn is_next(&self, item: u64, name: &'a [u8], offset: u64) -> bool
        requires { Knows N.names self.now }
        ensures { result ≡ (needed self.now.plan.now (loaded self.now) name.now
            && not (is_taken (loaded self.now) item offset)) }
    {
        self.names.is_missing(name) && !self.taken.has_member(item, offset)
    }

    /// Whether an object of an item is loaded.
    pub fn has_begun(&self, item: u64) -> bool
        requires { Knows N.names self.now }
        ensures { result ≡ is_begun (loaded self.now) item }
    {
        self.taken.has_item(item)
    }

    /// How many names were asked for.
    pub fn request_count(&self) -> usize
        ensures { result ≡ length self.now.names.requested }
    {
        self.names.requested.len()
    }

    /// The name that was asked for as number `i`, from 0; None where there are no more than `i`.
    pub fn request(&self, i: usize) -> Option<&'a [u8]>
        ensures { option_copied result ≡ slice_get self.now.names.requested i }
    {
        self.names.requested.get(i)
    }

    /// The object that loading has come to last.
    pub fn reached(&self) -> Option<Reached<'a>>
        ensures { result ≡ self.now.reached }
    {
        self.reached
    }

    /// How many objects are loaded.
    pub fn count(&self) -> usize
        ensures { result ≡ length (loaded self.now) }
    {
        self.objects.len()
    }
}
