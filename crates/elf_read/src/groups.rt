//! Groups of sections (System V gABI 4, "Section Groups"): the sections that list them, what these list,
//! and what may be listed.
ghost use Rattle.std.specs.Prelude.{◌≡◌, ◌↔◌, ◌+◌, ◌-◌, ◌/◌, ◌<◌, ◌≤◌, ◌^◌, ◌==◌, ◌++◌, [], ◌∷◌, All, IfErr, IfOk, IsTrue, OnOk, count_by, if◌then◌else◌, length};
ghost use Rattle.byteview.specs.Numbers.{IsInside, le, le_at};
ghost use Rattle.elf_model.specs.Inputs.ObjectFile.{AreGoodGroupSections, AreMembers, AreSymbolsNamed, HasGoodSymbolTable, HasTable, HaveSignatures, IsGroupSection, IsPlaced, LiesInside, LinksToSymbols, MayBeMember, StandsIn, entries, group_at, group_members, groups_of};
ghost use Rattle.elf_model.specs.declared.records.FileHeader.{FileHeader};
ghost use Rattle.elf_read.specs.Reading.{names_of};

use crate::sections::{links_to_symbols, section};
use byteview::View;
use elf_model::{ObjFault, SHT_GROUP, SHT_STRTAB, SHT_SYMTAB, SectionHeader, Symbol};
use std::alloc::{AllocError, Global};
use std::marker::Model;

/// The bytes of a word of a GROUP section.
const WORD_SIZE: usize = 4;

/// A group of sections: sections that are kept or dropped together (System V gABI 4, "Section
/// Groups"). Its signature is the name of a symbol, borrowed from the file.
#[derive(Drop)]
pub struct Group<'a> {
    section: usize,
    flags: u32,
    signature: &'a [u8],
    members: Vec<u32>,
}

impl<'a> Model for Group<'a> {
    ghost use Rattle.elf_model.specs.Inputs.ObjectFile.{Group as ListedGroup};

    ghost Value = { ListedGroup };

    ghost view = { λ g. record { section = g.section; flags = g.flags; signature = g.signature.now; members = g.members.items } };
}

impl<'a> Group<'a> {
    /// The number of the section, one of type GROUP, that lists the group.
    pub fn section(&self) -> usize
        ensures { result ≡ self.now.section }
    {
        self.section
    }

    /// The group's flags: GRP_COMDAT, or 0 for none. An object may have others too.
    pub fn flags(&self) -> u32
        ensures { result ≡ self.now.flags }
    {
        self.flags
    }

    /// The name of the symbol that identifies the group; it may be empty.
    pub fn signature(&self) -> &'a [u8]
        ensures { result.now ≡ self.now.signature }
    {
        self.signature
    }

    /// The numbers of the group's sections, in the order in which it lists them. One may stand twice.
    pub fn members(&self) -> &[u32]
        ensures { result.now ≡ self.now.members }
    {
        self.members.as_slice()
    }
}

/// Whether the headers of GROUP sections are good.
pub fn are_good_group_sections(sections: &[SectionHeader]) -> bool
    requires one { count_by (λ s. s.sh_type == 2) sections.now ≤ 1 }
    ensures { IsTrue result ↔ AreGoodGroupSections sections.now }
{
    sections.iter().all(|section| section.sh_type != SHT_GROUP
        || is_group_section(sections, section))
}

/// Whether the header of a GROUP section is a good one.
pub fn is_group_section(sections: &[SectionHeader], group: &SectionHeader) -> bool
    requires one { count_by (λ s. s.sh_type == 2) sections.now ≤ 1 }
    ensures { IsTrue result ↔ IsGroupSection sections.now group.now }
{
    if group.sh_size == 0 || group.sh_size as usize % WORD_SIZE != 0 {
        return false;
    }
    links_to_symbols(sections, group)
}

/// The groups of a file, whose section headers and symbols were judged.
pub fn judge_groups<'a>(
    alloc: Global,
    file: &View<'a>,
    sections: &[SectionHeader],
    symbols: &[Symbol],
    symbol_strings: &View<'a>,
) -> Result<Vec<Group<'a>>, ObjFault>
    requires small { length file.now < 2 ^ 32 }
    requires ranges { All (IsPlaced (length file.now)) sections.now }
    requires symbol_table { HasGoodSymbolTable sections.now }
    requires tables { AreGoodGroupSections sections.now }
    requires named { AreSymbolsNamed symbol_strings.now symbols.now }
    ensures exact { IfOk result (λ v. v.items
        ≡ groups_of file.now sections.now (names_of symbol_strings.now symbols.now)) }
    ensures signatures { OnOk result (HaveSignatures (length symbols.now) sections.now) }
    ensures members { OnOk result (All
        (λ s. s.sh_type ≡ 17
        → AreMembers sections.now (group_members file.now s)) sections.now) }
    ensures fault { IfErr result (λ f. (h : FileHeader) →
        HasTable (length file.now) h → StandsIn file.now h sections.now symbols.now f) }
{
    if !have_signatures(sections, symbols.len()) {
        return Err(ObjFault::BadGroup);
    }
    let groups = read_groups(alloc, file, sections, symbols, symbol_strings)?;
    if !have_good_members(sections, &groups) {
        return Err(ObjFault::BadGroup);
    }
    Ok(groups)
}

/// Whether each group's signature names one of `count` symbols.
fn have_signatures(sections: &[SectionHeader], count: usize) -> bool
    ensures { IsTrue result ↔ HaveSignatures count sections.now }
{
    sections.iter().all(|section| section.sh_type != SHT_GROUP
        || (section.sh_info as usize) < count)
}

/// Whether all members of all groups may be such.
fn have_good_members(sections: &[SectionHeader], groups: &[Group<'_>]) -> bool
    ensures { IsTrue result ↔ All (λ g. AreMembers sections.now g.members) groups.now }
{
    groups
        .iter()
        .all(|group| are_members(sections, group.members()))
}

fn are_members(sections: &[SectionHeader], members: &[u32]) -> bool
    ensures { IsTrue result ↔ AreMembers sections.now members.now }
{
    members
        .iter()
        .all(|member| may_be_member(sections, *member as usize))
}

/// Whether a section of that number may be a member of a group.
pub fn may_be_member(sections: &[SectionHeader], number: usize) -> bool
    ensures { IsTrue result ↔ MayBeMember sections.now number }
{
    if number == 0 || number >= sections.len() {
        return false;
    }
    let kind = section(sections, number).sh_type;
    kind != SHT_SYMTAB && kind != SHT_STRTAB && kind != SHT_GROUP
}

/// The groups that sections list, which lie inside the file.
fn read_groups<'a>(
    alloc: Global,
    file: &View<'a>,
    sections: &[SectionHeader],
    symbols: &[Symbol],
    symbol_strings: &View<'a>,
) -> Result<Vec<Group<'a>>, AllocError>
    requires small { length file.now < 2 ^ 32 }
    requires ranges { All (IsPlaced (length file.now)) sections.now }
    requires tables { AreGoodGroupSections sections.now }
    requires named { AreSymbolsNamed symbol_strings.now symbols.now }
    ensures { IfOk result (λ v. v.items
        ≡ groups_of file.now sections.now (names_of symbol_strings.now symbols.now)) }
{
    let mut groups = Vec::with_capacity(alloc, group_count(sections))?;
    for (i, section) in sections.iter().enumerate() {
        if section.sh_type == SHT_GROUP {
            let signature = symbol_name(symbols, symbol_strings, section.sh_info as usize);
            groups.push(read_group(alloc, file, i, section, signature)?)?;
        }
    }
    Ok(groups)
}

/// How many sections list a group.
fn group_count(sections: &[SectionHeader]) -> usize
    ensures { result ≡ count_by (λ s. s.sh_type == 17) sections.now }
{
    sections
        .iter()
        .filter(|section| section.sh_type == SHT_GROUP)
        .count()
}

/// The name of a symbol; the empty one where there is no such symbol.
fn symbol_name<'a>(symbols: &[Symbol], strings: &View<'a>, number: usize) -> &'a [u8]
    requires { AreSymbolsNamed strings.now symbols.now }
    ensures { result.now ≡ names_of strings.now symbols.now number }
{
    let Some(symbol) = symbols.get(number) else {
        return &[];
    };
    let Some(name) = strings.text_at(symbol.st_name as usize) else {
        unreachable!()
    };
    name
}

/// The group that section `number` lists, which lies inside the file and has a first word.
fn read_group<'a>(
    alloc: Global,
    file: &View<'a>,
    number: usize,
    section: &SectionHeader,
    signature: &'a [u8],
) -> Result<Group<'a>, AllocError>
    requires small { length file.now < 2 ^ 32 }
    requires inside { LiesInside (length file.now) section.now }
    requires some { 4 ≤ section.now.sh_size }
    ensures number { IfOk result (λ g. g.section ≡ number) }
    ensures flags { IfOk result (λ g. g.flags ≡ le_at 4 file.now section.now.sh_offset) }
    ensures signature { IfOk result (λ g. g.signature ≡ signature.entry.now) }
    ensures members { IfOk result (λ g. g.members ≡ group_members file.now section.now) }
{
    Ok(Group {
        section: number,
        flags: file.u32_inside(section.sh_offset as usize),
        signature,
        members: read_members(alloc, file, section)?,
    })
}

/// The numbers behind the first word of a GROUP section, which lies inside the file.
#[tactic(auto, using(crate::proofs::Entries::entries_more))]
pub fn read_members(
    alloc: Global,
    file: &View<'_>,
    section: &SectionHeader,
) -> Result<Vec<u32>, AllocError>
    requires small { length file.now < 2 ^ 32 }
    requires inside { LiesInside (length file.now) section.now }
    requires some { 4 ≤ section.now.sh_size }
    ensures { IfOk result (λ v. v.items ≡ group_members file.now section.now) }
{
    let start = section.sh_offset as usize + WORD_SIZE;
    let count = section.sh_size as usize / WORD_SIZE - 1;
    let mut members = Vec::with_capacity(alloc, count)?;
    for i in 0..count {
        members.push(file.u32_inside(start + WORD_SIZE * i))?;
    }
    Ok(members)
}
