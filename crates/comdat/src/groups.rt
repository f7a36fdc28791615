//! The COMDAT groups of the objects that were loaded.
ghost use Rattle.std.specs.Prelude.{◌≡◌, List, [], IfErr, IfOk, OnErr, OnOk};
ghost use Rattle.elf_model.specs.Link.Groups.{AreDropped, AreLawfulGroups, GroupFaultStands, dropped, seen_after};
ghost use Rattle.elf_model.specs.Inputs.ObjectFile.{Group, groups};
ghost use Rattle.elf_model.specs.declared.faults.GroupFault.TheVariants as fault;

use crate::dropped::{Dropped, admit_groups};
use crate::lawfulness::judge;
use elf_model::{GroupFault, Name, NameSeed};
use elf_read::ObjectFile;
use indexmap::IndexSet;
use std::alloc::Global;
use std::marker::Model;

/// The signatures of the COMDAT groups admitted so far, each once, in the order in which they came.
/// They are borrowed from the objects' files.
#[derive(Drop)]
pub struct Groups<'a> {
    alloc: Global,
    signatures: IndexSet<Name<'a>, NameSeed>,
}

impl<'a> Model for Groups<'a> {
    ghost use Rattle.std.specs.Prelude.{List, ℕ};
    ghost use Rattle.comdat.specs.Signatures.{names_of};

    ghost Value = { List (List ℕ) };

    ghost view = { λ g. names_of g.signatures.keys };
}

impl<'a> Groups<'a> {
    /// No group yet; takes no memory. Signatures are hashed from a seed that is always the same.
    pub fn new(alloc: Global) -> Groups<'a>
        ensures { result ≡ [] }
    {
        Groups::seeded(alloc, NameSeed::fixed())
    }

    /// No group yet, with the seed from which signatures are hashed; takes no memory.
    pub fn seeded(alloc: Global, seed: NameSeed) -> Groups<'a>
        ensures { result ≡ [] }
    {
        Groups {
            alloc,
            signatures: IndexSet::with_hasher(alloc, seed),
        }
    }

    /// Admits the groups of the object that is loaded next, in the order of their sections, and tells
    /// which of its sections are dropped: the members of COMDAT groups whose signature a COMDAT group
    /// has that was admitted before.
    ///
    /// # Errors
    ///
    /// `GroupFault` says what stands against the object's groups; `Memory` alone may be answered of
    /// lawful ones. No group of the object is admitted then.
    pub fn admit(&mut self, object: &ObjectFile<'a>) -> Result<Dropped, GroupFault>
        ensures lawful { OnOk result (AreLawfulGroups (groups object.now)) }
        ensures dropped { IfOk result (λ d. d ≡ dropped self.old (groups object.now)) }
        // The same as a relation over all groups that were admitted, in load order.
        ensures load_order { IfOk result (λ d. (earlier : List Group) →
            self.old ≡ seen_after [] earlier → AreDropped earlier (groups object.now) d) }
        ensures admitted { OnOk result (self.new ≡ seen_after self.old (groups object.now)) }
        ensures fault { IfErr result (GroupFaultStands (groups object.now)) }
        ensures unchanged { OnErr result (self.new ≡ self.old) }
        ensures only { AreLawfulGroups (groups object.now) → IfErr result (λ f. f ≡ fault.Memory) }
    {
        let groups = object.groups();
        let count = object.sections().len();
        judge(self.alloc, groups, count)?;
        let before = self.signatures.len();
        match admit_groups(self.alloc, &mut self.signatures, groups, count) {
            Ok(dropped) => Ok(dropped),
            Err(error) => {
                self.signatures.truncate(before);
                Err(GroupFault::from(error))
            }
        }
    }
}
