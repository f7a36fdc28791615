//! The size of the GOT, the block of thread-local storage, and offsets from the thread pointer.
ghost use Rattle.std.specs.Prelude.{◌≡◌, ◌<◌};

use crate::tests::meanings::{global, local};
use crate::tests::objects::{
    BSS, DATA, ENTRY, F_NAME, G_NAME, SYMBOLS, TEXT, load_files, object_of, object_with, one_file,
};
use crate::tests::places::placed;
use elf_model::{Rela, SHF_ALLOC, SHF_TLS, SHF_WRITE, SectionHeader};
use got_tls::{TlsBlock, slots, tls_block, tp_offset};
use layout::{LayoutFault, Placement};
use resolve::{Resolved, resolve};
use search::Loaded;
use std::alloc::{AllocError, Global};
use std::test::Fail;

/// The GOT's size and the number of its slots, of objects whose names are resolved.
fn resolved_got<'a>(
    alloc: Global,
    loaded: &Loaded<'a>,
    resolved: &Resolved<'a>,
) -> Result<(u64, usize), AllocError>
    requires { resolved.now ≡ loaded.now.objects }
{
    let found = slots(alloc, loaded, resolved)?;
    Ok((found.got().0, found.slots().len()))
}

/// The GOT's size and the number of its slots.
fn got_of(alloc: Global, loaded: &Loaded<'_>) -> Result<(u64, usize), Fail> {
    let resolved = resolve(alloc, loaded)?;
    Ok(resolved_got(alloc, loaded, &resolved)?)
}

/// Those of the object in a file.
fn got_of_file(alloc: Global, file: &[u8]) -> Result<(u64, usize), Fail> {
    let files = one_file(alloc, file)?;
    let loaded = load_files(alloc, &files)?;
    got_of(alloc, &loaded)
}

/// The start, the size and the alignment of a block of thread-local storage, and the offset of an address in it.
type Block = (u64, u64, u64, u64);

/// The block of a layout.
fn told_block(placement: &Placement<'_>, address: u64) -> Option<Block> {
    let block = tls_block(placement)?;
    let offset = tp_offset(block, address);
    Some((block.start, block.size, block.align, offset))
}

/// The block of objects whose names are resolved, laid out from 0x400000 on.
fn resolved_block<'a>(
    alloc: Global,
    loaded: &Loaded<'a>,
    resolved: &Resolved<'a>,
    address: u64,
) -> Result<Option<Block>, LayoutFault>
    requires { resolved.now ≡ loaded.now.objects }
{
    let placement = placed(alloc, loaded, resolved)?;
    Ok(told_block(&placement, address))
}

/// That of objects.
fn loaded_block(alloc: Global, loaded: &Loaded<'_>, address: u64) -> Result<Option<Block>, Fail> {
    let resolved = resolve(alloc, loaded)?;
    Ok(resolved_block(alloc, loaded, &resolved, address)?)
}

/// That of the object in a file.
fn block_of_file(alloc: Global, file: &[u8], address: u64) -> Result<Option<Block>, Fail> {
    let files = one_file(alloc, file)?;
    let loaded = load_files(alloc, &files)?;
    loaded_block(alloc, &loaded, address)
}

/// That of an object of these sections.
fn block_of(
    alloc: Global,
    sections: &[SectionHeader],
    address: u64,
) -> Result<Option<Block>, Fail> {
    let file = object_of(alloc, sections)?;
    block_of_file(alloc, &file, address)
}

/// `.tdata` of 4 bytes.
fn thread_data(sh_addralign: u64) -> SectionHeader {
    SectionHeader {
        sh_flags: SHF_ALLOC | SHF_WRITE | SHF_TLS,
        sh_size: 4,
        sh_addralign,
        ..DATA
    }
}

/// `.tbss` of 8 bytes.
fn thread_zeros(sh_addralign: u64) -> SectionHeader {
    SectionHeader {
        sh_flags: SHF_ALLOC | SHF_WRITE | SHF_TLS,
        sh_addralign,
        ..BSS
    }
}

/// The offset of an address from the thread pointer of a block at 0x402000.
fn offset(size: u64, align: u64, address: u64) -> u64
    requires { 0 < align }
{
    let block = TlsBlock {
        start: 0x402000,
        size,
        align,
    };
    tp_offset(block, address)
}

/// Two relocations of a text, by their symbol and type, and the GOT's size and the number of its slots.
static ASKING: [(u64, u64, u64, usize); 7] = [
    // R_X86_64_PC32 asks for nothing, R_X86_64_GOTPC32 for a GOT alone.
    (0x1_0000_0002, 0x2_0000_0002, 0, 0),
    (0x1_0000_001a, 0x2_0000_0002, 8, 0),
    // R_X86_64_GOTPCREL and R_X86_64_REX_GOTPCRELX ask for a slot, R_X86_64_GOTTPOFF for another one.
    (0x1_0000_0009, 0x2_0000_0002, 16, 1),
    (0x1_0000_0009, 0x2_0000_002a, 24, 2),
    (0x1_0000_0009, 0x1_0000_002a, 16, 1),
    (0x1_0000_0009, 0x1_0000_0016, 24, 2),
    (0x1_0000_0019, 0x2_0000_001d, 8, 0),
];

/// An entry at an offset.
fn entry(r_offset: u64, r_info: u64) -> Rela {
    Rela {
        r_offset,
        r_info,
        r_addend: 0,
    }
}

/// The GOT's size and the number of its slots, of an object with relocations of these symbols and types.
fn got_asked(alloc: Global, first: u64, second: u64) -> Result<(u64, usize), Fail> {
    let entries = SectionHeader {
        sh_link: 3,
        sh_info: 2,
        sh_size: 48,
        ..ENTRY
    };
    let relas = [entry(0, first), entry(4, second)];
    let symbols = [global(F_NAME, 2), global(G_NAME, 2)];
    let file = object_with(alloc, &[TEXT, SYMBOLS, entries], &symbols, &relas)?;
    got_of_file(alloc, &file)
}

#[test]
fn relocations_ask_for_slots(rt: HostRuntime) -> Result<(), Fail> {
    for (first, second, size, count) in ASKING {
        let found = got_asked(rt.alloc(), first, second)?;
        assert!(rt; found == (size, count), "{first} and {second}");
    }
    Ok(())
}

/// More slots than a number of 16 bits counts.
const MANY: u32 = 70_000;

/// An object of so many LOCAL symbols, with an R_X86_64_GOTPCREL to each at the beginning of its text.
fn many_slots(alloc: Global) -> Result<Vec<u8>, AllocError> {
    let mut symbols = Vec::new(alloc);
    symbols.resize(MANY as usize, local(2))?;
    let mut relas = Vec::new(alloc);
    for symbol in 1..=MANY {
        relas.push(entry(0, u64::from(symbol) << 32 | 9))?;
    }
    let table = SectionHeader {
        sh_size: 24 * (u64::from(MANY) + 1),
        ..SYMBOLS
    };
    let entries = SectionHeader {
        sh_offset: table.sh_offset + table.sh_size,
        sh_size: 24 * u64::from(MANY),
        sh_link: 3,
        sh_info: 2,
        ..ENTRY
    };
    object_with(alloc, &[TEXT, table, entries], &symbols, &relas)
}

#[test]
fn slots_may_be_many(rt: HostRuntime) -> Result<(), Fail> {
    let file = many_slots(rt.alloc())?;
    assert!(rt; got_of_file(rt.alloc(), &file)? == (560_008, 70_000));
    Ok(())
}

#[test]
fn thread_storage_is_a_block(rt: HostRuntime) -> Result<(), Fail> {
    let alloc = rt.alloc();
    let none = block_of(alloc, &[TEXT, DATA, BSS], 0x402000)?;
    // .tdata at 0x402000, .tbss and .bss at 0x402008
    let sections = [TEXT, thread_data(4), thread_zeros(8), BSS];
    let first = block_of(alloc, &sections, 0x402008)?;
    // .tdata at 0x402000, .tbss at 0x402004; the thread pointer is 0x402010
    let sections = [TEXT, thread_data(16), thread_zeros(4)];
    let second = block_of(alloc, &sections, 0x402004)?;
    let wanted = [
        None,
        Some((0x402000, 0x10, 8, 0xffff_ffff_ffff_fff8)),
        Some((0x402000, 0xc, 16, 0xffff_ffff_ffff_fff4)),
    ];
    assert!(rt; [none, first, second] == wanted);
    Ok(())
}

#[test]
fn offsets_are_from_the_rounded_end(rt: HostRuntime) {
    let found = [
        offset(0x10, 8, 0x402008),
        offset(0xc, 8, 0x402000),
        offset(5, 1, 0x402000),
        offset(4, 0x1000, 0x402000),
        offset(0x10, 8, 0x402010),
        offset(0xc, 8, 0x402018),
    ];
    let wanted = [
        0xffff_ffff_ffff_fff8,
        0xffff_ffff_ffff_fff0,
        0xffff_ffff_ffff_fffb,
        0xffff_ffff_ffff_f000,
        0,
        8,
    ];
    assert!(rt; found == wanted);
}
