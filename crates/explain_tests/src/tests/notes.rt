//! What is told beside relocations that aren't lawful: that their symbols are not defined, what defines them, and the sections
//! of an output name.
use crate::tests::lines::lines_of;
use elf_model::{SHF_ALLOC, SHT_INIT_ARRAY};
use link_samples::links::{File, files_of};
use link_samples::objects::{NamedSymbol, Relocation, Section};
use link_samples::parts::{DATA, NO_F, R_64, R_PC32, START, TEXT, THREAD_DATA, V, WEAK_NO_F};
use std::test::Fail;

/// Files, the words of a line, and the text that is told.
type Row = (&'static [File], &'static str, &'static str);

/// Types of relocations (AMD64 psABI 4.4.1): where a dynamic module's variable is described, and an offset from the thread
/// pointer.
const R_TLSGD: u32 = 19;

const R_TPOFF32: u32 = 23;

/// A `.text` with room for two fields.
const LONG_TEXT: Section<'static> = Section {
    bytes: &[0x90; 16],
    ..TEXT
};

/// A GLOBAL `f` of type TLS at the beginning of section 2, and a WEAK one.
const THREAD_F: NamedSymbol<'static> = NamedSymbol {
    st_info: 0x16,
    st_shndx: 2,
    ..NO_F
};

const WEAK_THREAD_F: NamedSymbol<'static> = NamedSymbol {
    st_info: 0x26,
    ..THREAD_F
};

/// An `f` in the data of section 2.
const DATA_F: NamedSymbol<'static> = NamedSymbol { name: "f", ..V };

/// An array of functions that is written to, and one of its output name that isn't.
const INIT_ARRAY: Section<'static> = Section {
    name: ".init_array",
    sh_type: SHT_INIT_ARRAY,
    ..DATA
};

const FIXED_ARRAY: Section<'static> = Section {
    name: ".init_array.7",
    sh_flags: SHF_ALLOC,
    ..INIT_ARRAY
};

const ARRAY_START: NamedSymbol<'static> = NamedSymbol {
    name: "__init_array_start",
    ..NO_F
};

const NOTES: [Row; 5] = [
    // Once a name, beside the first of its relocations.
    (
        &[File::Object(
            "a.o",
            &[LONG_TEXT],
            &[START, NO_F],
            &[
                Relocation(1, 0, R_TLSGD, 2, 0),
                Relocation(1, 8, R_TLSGD, 2, 0),
            ],
        )],
        "a.o",
        "a.o: .text+0x0 in _start: not a type of relocation that is linked: -ftls-model=local-exec or -fno-pic avoids it \
         (relocation 0 of section 4, R_X86_64_TLSGD, to symbol 2); f is not defined\n\
         a.o: .text+0x8 in _start: not a type of relocation that is linked: -ftls-model=local-exec or -fno-pic avoids it \
         (relocation 1 of section 4, R_X86_64_TLSGD, to symbol 2)\n",
    ),
    // A WEAK symbol needs no definition.
    (
        &[File::Object(
            "a.o",
            &[LONG_TEXT],
            &[START, WEAK_NO_F],
            &[Relocation(1, 0, R_TLSGD, 2, 0)],
        )],
        "a.o",
        "a.o: .text+0x0 in _start: not a type of relocation that is linked: -ftls-model=local-exec or -fno-pic avoids it \
         (relocation 0 of section 4, R_X86_64_TLSGD, to symbol 2)\n",
    ),
    (
        &[
            File::Object(
                "a.o",
                &[TEXT],
                &[START, NO_F],
                &[Relocation(1, 0, R_PC32, 2, 0)],
            ),
            File::Object("b.o", &[TEXT, THREAD_DATA], &[THREAD_F], &[]),
        ],
        "a.o b.o",
        "a.o: .text+0x0 in _start: f is thread-local, or not, against the relocation's type (relocation 0 of section 4, \
         R_X86_64_PC32, to symbol 2); b.o defines f in thread-local storage (symbol 1 of .tdata)\n",
    ),
    // Of several definitions the one that the name means: a GLOBAL one before a WEAK one.
    (
        &[
            File::Object(
                "a.o",
                &[TEXT],
                &[START, NO_F],
                &[Relocation(1, 0, R_TPOFF32, 2, 0)],
            ),
            File::Object("b.o", &[TEXT, THREAD_DATA], &[WEAK_THREAD_F], &[]),
            File::Object("c.o", &[TEXT, DATA], &[DATA_F], &[]),
        ],
        "a.o b.o c.o",
        "a.o: .text+0x0 in _start: f is thread-local, or not, against the relocation's type (relocation 0 of section 4, \
         R_X86_64_TPOFF32, to symbol 2); c.o defines f outside thread-local storage (symbol 1 of .data)\n",
    ),
    // The first section of the output name, and the first one that has other flags.
    (
        &[
            File::Object(
                "a.o",
                &[TEXT, INIT_ARRAY],
                &[START, ARRAY_START],
                &[Relocation(1, 0, R_64, 2, 0)],
            ),
            File::Object("b.o", &[TEXT, INIT_ARRAY], &[], &[]),
            File::Object("c.o", &[TEXT, FIXED_ARRAY], &[], &[]),
        ],
        "a.o b.o c.o",
        "a.o: .text+0x0 in _start: __init_array_start is a bound of an output name of several output sections \
         (relocation 0 of section 5, R_X86_64_64, to symbol 2); a.o has section 2 .init_array: type INIT_ARRAY, flags \
         WRITE ALLOC; c.o has section 2 .init_array.7: type INIT_ARRAY, flags ALLOC\n",
    ),
];

#[test]
fn notes_are_told(rt: HostRuntime) -> Result<(), Fail> {
    for (files, line, wanted) in &NOTES {
        let files = files_of(rt.alloc(), files)?;
        let text = lines_of(rt.alloc(), &files, line, 9)?;
        assert_eq!(rt; text.as_str(), *wanted, "{line}");
    }
    Ok(())
}
