//! Where the pieces of objects and the GOT stand, in which segments, and the address of each kept section, of each common
//! block and of the GOT.
ghost use Rattle.std.specs.Prelude.{◌≡◌, IfErr, IfOk, OnOk, find, option_map};
ghost use Rattle.std.specs.Option.{option_and_then};
ghost use Rattle.elf_model.specs.Inputs.Command.{IsBase};
ghost use Rattle.elf_model.specs.Link.Commons as commons;
ghost use Rattle.elf_model.specs.Own.ImageFile.{is_got_piece};
ghost use Rattle.elf_model.specs.Link.LinkerValues.{bound_value};
ghost use Rattle.elf_model.specs.Link.Loading.{AreObjects};
ghost use Rattle.elf_model.specs.Own.OwnAddresses.{AreOwnAddresses};
ghost use Rattle.elf_model.specs.Own.OwnLayout.{IsNotTooLarge, own_got, own_in_load_order, own_loaded, own_placed, own_places, own_segments, own_where};
ghost use Rattle.elf_model.specs.Link.Pieces.{AreLawfulKinds, kept_sections};
ghost use Rattle.elf_model.specs.Link.Placement.{is_of_section};
ghost use Rattle.elf_model.specs.Link.Resolution.{AreSoundCommons};
ghost use Rattle.elf_model.specs.Link.Slots as slots;
ghost use Rattle.elf_model.specs.Link.ThreadStorage.{thread_block};
ghost use Rattle.search.specs.Views.{loaded_views};
ghost use Rattle.resolve.specs.OutputSections.{AreOutputSections};
ghost use Rattle.resolve.specs.Blocks.{block_in, block_view, block_views};
ghost use Rattle.layout.specs.Laid.{IsLayout, LayoutFails};
ghost use Rattle.placing.specs.PlaceViews.{place_views};
ghost use Rattle.layout.specs.Placements.{IsLaidOut};
ghost use Rattle.layout.specs.Tables.{AreTables};
ghost use Rattle.layout.specs.Threads.{header_in};
ghost use Rattle.placing.specs.Views.{piece_view};

use crate::addresses::{address_in, address_table};
use crate::bounds::{Bounds, bound_in, bounds_of};
use crate::got_size::GotSize;
use crate::order::order_of;
use crate::pieces::{all_pieces, got_number};
use crate::placed_pieces::{Layout, lay_out};
use crate::threads::block_of;
use elf_model::{Bound, ProgramHeader, SectionRef, TlsBlock};
use placing::{LayoutFault, Piece, Place};
use resolve::{Block, OutputSections, Resolved};
use search::{Loaded, LoadedObject};
use std::alloc::Global;
use std::collections::BTreeMap;
use std::marker::Model;
use std::rc::Rc;

/// What the linker's own layout says of loaded objects: the pieces and the GOT at their addresses, of which memory has
/// a place for the first ones, the segments that hold them, the program header of thread-local storage, the address of each
/// kept section and common block and of the GOT, and what the linker's own names stand for.
#[derive(Drop)]
struct Tables<'a> {
    places: Vec<Place<'a>>,
    loaded: usize,
    segments: Vec<ProgramHeader>,
    thread_header: Option<ProgramHeader>,
    addresses: Vec<Vec<u64>>,
    bounds: Bounds<'a>,
}

/// The linker's own layout of what is loaded, from a base on: the pieces and the GOT at their addresses, the segments that
/// hold them, and what the linker's own names stand for.
#[derive(Drop)]
pub struct Placement<'a> {
    base: u64,
    loaded: Loaded<'a>,
    named_blocks: Rc<BTreeMap<&'a [u8], Block<'a>>>,
    tables: Tables<'a>,
}

impl<'a> Model for Placement<'a> {
    ghost use Rattle.layout.specs.Placements.{Basis, IsLaidOut};
    ghost use Rattle.layout.specs.Tables.{AreTables, IsNamed};

    ghost Value = { Basis };

    ghost view = { λ p. record { base = p.base; objects = p.loaded.objects } };

    ghost invariant = { λ p. AreTables p.base p.loaded.objects p.tables × IsNamed p.loaded.objects p.named_blocks.value × IsLaidOut p.base p.loaded.objects };
}

/// The own layout of objects, whose common blocks these are, with a GOT of this size in bytes.
fn layout_of<'a>(
    alloc: Global,
    outputs: &OutputSections<'a>,
    objects: &[LoadedObject<'a>],
    blocks: &[Block<'a>],
    got_size: u64,
    base: u64,
) -> Result<Layout<'a>, LayoutFault>
    requires base { IsBase base }
    requires objects { AreObjects (loaded_views objects.now) }
    requires commons { AreSoundCommons (loaded_views objects.now) }
    requires listed { block_views blocks.now ≡ commons.blocks (loaded_views objects.now) }
    requires got { got_size ≡ slots.got_size (loaded_views objects.now) }
    requires outputs { AreOutputSections (loaded_views objects.now) outputs.now }
    ensures layout { IfOk result (λ l. IsLayout base (loaded_views objects.now) l) }
    ensures fits { OnOk result (IsNotTooLarge base (loaded_views objects.now)) }
    ensures fault { IfErr result (LayoutFails base (loaded_views objects.now)) }
{
    let pieces = all_pieces(alloc, objects, blocks, got_size)?;
    let order = order_of(alloc, outputs, objects, &pieces)?;
    lay_out(alloc, &order, base)
}

/// The tables of the own layout of objects, whose common blocks these are, with a GOT of this size in bytes.
fn tables_of<'a>(
    alloc: Global,
    outputs: &OutputSections<'a>,
    objects: &[LoadedObject<'a>],
    blocks: &[Block<'a>],
    got_size: u64,
    base: u64,
) -> Result<Tables<'a>, LayoutFault>
    requires base { IsBase base }
    requires objects { AreObjects (loaded_views objects.now) }
    requires commons { AreSoundCommons (loaded_views objects.now) }
    requires listed { block_views blocks.now ≡ commons.blocks (loaded_views objects.now) }
    requires got { got_size ≡ slots.got_size (loaded_views objects.now) }
    requires outputs { AreOutputSections (loaded_views objects.now) outputs.now }
    ensures tables { IfOk result (AreTables base (loaded_views objects.now)) }
    ensures addresses { OnOk result (AreLawfulKinds (loaded_views objects.now) →
        AreOwnAddresses base (loaded_views objects.now)) }
    ensures fits { OnOk result (IsNotTooLarge base (loaded_views objects.now)) }
    ensures fault { IfErr result (LayoutFails base (loaded_views objects.now)) }
{
    let layout = layout_of(alloc, outputs, objects, blocks, got_size, base)?;
    let addresses = address_table(alloc, objects, blocks.len(), &layout.places)?;
    let bounds = bounds_of(alloc, got_number(objects), &layout.places)?;
    Ok(Tables {
        places: layout.places,
        loaded: layout.loaded,
        segments: layout.segments,
        thread_header: layout.thread_header,
        addresses,
        bounds,
    })
}

/// Lays out the kept sections of what is loaded, its common blocks and its GOT, which has this size (0 without one), from a
/// base on. Where the kinds of the sections are lawful, each piece then stands at the least multiple of its alignment below
/// neither the headers' end, nor its segment's beginning, nor the end of a piece before it in the order of the segments that
/// takes up memory; a thread-local one below neither the beginning of thread-local storage, nor the end of a thread-local
/// one before it.
///
/// # Errors
///
/// `TooLarge` where the headers, a piece or the GOT would end above 2 ^ 46, or the file have 2 ^ 32 bytes or more;
/// `Memory`.
pub fn place<'a>(
    alloc: Global,
    loaded: &Loaded<'a>,
    resolved: &Resolved<'a>,
    got: GotSize,
    base: u64,
) -> Result<Placement<'a>, LayoutFault>
    requires base { IsBase base }
    requires resolved { resolved.now ≡ loaded.now.objects }
    requires got { got.0 ≡ slots.got_size loaded.now.objects }
    ensures exact { IfOk result (λ p. p ≡ record { base = base; objects = loaded.now.objects }) }
    ensures addresses { OnOk result (AreLawfulKinds loaded.now.objects
        → AreOwnAddresses base loaded.now.objects) }
    ensures fits { OnOk result (IsNotTooLarge base loaded.now.objects) }
    ensures fault { IfErr result (LayoutFails base loaded.now.objects) }
{
    let objects = loaded.objects();
    let outputs = resolved.output_sections();
    let tables = tables_of(alloc, outputs, objects, resolved.blocks(), got.0, base)?;
    Ok(Placement {
        base,
        loaded: loaded.clone()?,
        named_blocks: resolved.named_blocks().clone()?,
        tables,
    })
}

/// The common block that an index finds by a name.
fn block_in<'a>(index: &BTreeMap<&'a [u8], Block<'a>>, name: &[u8]) -> Option<Block<'a>>
    ensures { option_map block_view result ≡ block_in index.now name.now }
{
    index.get(name).copied()
}

impl<'a> Placement<'a> {
    /// The address from which the image is mapped.
    pub fn base(&self) -> u64
        ensures { result ≡ self.now.base }
    {
        self.base
    }

    /// The PT_LOAD headers: R, then RX and RW where a piece or the GOT takes up memory there.
    pub fn segments(&self) -> &[ProgramHeader]
        ensures { result.now ≡ own_segments self.now.base self.now.objects }
    {
        self.tables.segments.as_slice()
    }

    /// All pieces and the GOT at their addresses: those for which memory has a place, then the thread-local ones without
    /// bytes; both by ascending address.
    pub fn places(&self) -> &[Place<'a>]
        ensures { place_views result.now ≡ own_placed self.now.base self.now.objects }
    {
        self.tables.places.as_slice()
    }

    /// The pieces for which memory has a place, and the GOT, at their addresses, by ascending address.
    pub fn loaded_places(&self) -> &[Place<'a>]
        ensures { place_views result.now ≡ own_loaded self.now.base self.now.objects }
    {
        let (loaded, _) = self.tables.places.split_at(self.tables.loaded);
        loaded
    }

    /// The PT_TLS header, where the kinds of all sections are lawful; None without thread-local pieces.
    pub fn thread_header(&self) -> Option<ProgramHeader>
        requires { AreLawfulKinds self.now.objects }
        ensures { result ≡ header_in self.now.base
            (own_in_load_order self.now.base self.now.objects) }
    {
        self.tables.thread_header
    }

    /// The block of thread-local storage; None without thread-local pieces. What is laid out are objects that readers accept,
    /// and their layout isn't too large, which bounds the block.
    pub fn thread_block(&self) -> Option<TlsBlock>
        ensures laid_out { IsLaidOut self.now.base self.now.objects }
        ensures placed { result ≡ thread_block (own_placed self.now.base self.now.objects) }
        ensures listed { AreLawfulKinds self.now.objects
            → result ≡ thread_block (own_in_load_order self.now.base self.now.objects) }
    {
        self.tables.thread_header.map(|h| block_of(&h))
    }

    /// The address of a section of a loaded object; None where it isn't kept, and where there is no such section.
    pub fn address(&self, section: SectionRef) -> Option<u64>
        ensures { result ≡ option_map (λ q. q.at)
            (find (is_of_section section.object.0 section.section)
            (own_places self.now.base self.now.objects (kept_sections self.now.objects))) }
    {
        if section.object.0 as usize >= self.loaded.objects().len() {
            return None;
        }
        self.numbered_address(section)
    }

    /// The address of a section of an object, or of a common block, which is numbered like a section of one object more
    /// than are loaded; None where it isn't kept.
    pub fn numbered_address(&self, section: SectionRef) -> Option<u64>
        ensures { result ≡ option_map (λ q. q.at)
            (find (is_of_section section.object.0 section.section)
            (own_in_load_order self.now.base self.now.objects)) }
    {
        let object = section.object.0 as usize;
        if object > self.loaded.objects().len() {
            return None;
        }
        address_in(&self.tables.addresses, object, section.section as usize)
    }

    /// The address of the common block of a name; None where the name has none.
    pub fn common(&self, name: &[u8]) -> Option<u64>
        ensures { result ≡ option_and_then
            (λ b. option_map (λ q. q.at)
            (find (is_of_section b.object b.number)
            (own_in_load_order self.now.base self.now.objects)))
            (commons.block_named self.now.objects name.now) }
    {
        let block = self.named_block(name)?;
        self.numbered_address(block.section())
    }

    /// The common block of a name; None where it has none.
    fn named_block(&self, name: &[u8]) -> Option<Block<'a>>
        ensures { option_map block_view result ≡ commons.block_named self.now.objects name.now }
    {
        block_in(&self.named_blocks, name)
    }

    /// The address of a section or a common block, and also that of the GOT by its numbers as a piece.
    pub fn piece_address(&self, section: SectionRef) -> Option<u64>
        ensures { result ≡ option_map (λ q. q.at)
            (find (is_of_section section.object.0 section.section)
            (own_placed self.now.base self.now.objects)) }
    {
        let table = &*self.tables.addresses;
        address_in(table, section.object.0 as usize, section.section as usize)
    }

    /// The address of the GOT; None without one.
    pub fn got(&self) -> Option<u64>
        ensures { result ≡ option_map (λ g. g.address) (own_got self.now.base self.now.objects) }
    {
        address_in(
            &self.tables.addresses,
            got_number(self.loaded.objects()) as usize,
            0,
        )
    }

    /// Whether a piece is the GOT.
    pub fn is_got(&self, piece: &Piece<'_>) -> bool
        ensures { result ≡ is_got_piece self.now.objects (piece_view piece.now) }
    {
        piece.object == got_number(self.loaded.objects())
    }

    /// The value of one of the linker's own names, which stands for a bound, where the kinds of all sections are lawful.
    pub fn bound(&self, name: &[u8], bound: Bound) -> u64
        requires { AreLawfulKinds self.now.objects }
        ensures { result ≡ bound_value (own_where self.now.base self.now.objects) name.now bound }
    {
        let got = self.got().unwrap_or(0);
        bound_in(self.base, got, &self.tables.bounds, name, bound)
    }
}
