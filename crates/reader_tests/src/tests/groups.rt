//! Groups of sections as they are read, and as they are admitted.
use crate::tests::objects::{HEADER as OBJECT_HEADER, START as F, outcome, put_section};
use byteview::View;
use comdat::Groups;
use elf_model::{
    FileHeader, SHT_GROUP, SHT_PROGBITS, SHT_STRTAB, SHT_SYMTAB, SectionHeader, Symbol,
};
use elf_read::ObjectFile;
use std::alloc::{AllocError, Global};
use std::test::Fail;

const HEADER: FileHeader = FileHeader {
    e_shoff: 184,
    e_shnum: 7,
    ..OBJECT_HEADER
};

/// Sections 1 and 2, which may be members.
const TEXT: SectionHeader = SectionHeader {
    sh_type: SHT_PROGBITS,
    sh_offset: 64,
    sh_size: 16,
    ..SectionHeader::NULL
};

/// Section 3, the null symbol, `f` and `g`; its sh_info is 0.
const SYMBOLS: SectionHeader = SectionHeader {
    sh_type: SHT_SYMTAB,
    sh_offset: 80,
    sh_size: 72,
    sh_link: 4,
    sh_entsize: 24,
    ..SectionHeader::NULL
};

/// Section 4, the names of symbols and of sections.
const STRINGS: SectionHeader = SectionHeader {
    sh_type: SHT_STRTAB,
    sh_offset: 152,
    sh_size: 5,
    ..SectionHeader::NULL
};

/// A group of the signature `f`, which holds the first two words.
const GROUP_F: SectionHeader = SectionHeader {
    sh_type: SHT_GROUP,
    sh_offset: 160,
    sh_size: 8,
    sh_link: 3,
    sh_info: 1,
    sh_addralign: 4,
    sh_entsize: 4,
    ..SectionHeader::NULL
};

/// The same, of the last three words.
const LATER_F: SectionHeader = SectionHeader {
    sh_offset: 172,
    sh_size: 12,
    ..GROUP_F
};

/// The same, of the signature `g`.
const LATER_G: SectionHeader = SectionHeader {
    sh_info: 2,
    ..LATER_F
};

/// A group whose signature is the name of the null symbol.
const NAMELESS: SectionHeader = SectionHeader {
    sh_info: 0,
    ..GROUP_F
};

const G: Symbol = Symbol {
    st_name: 3,
    st_shndx: 2,
    ..F
};

/// The sections 5 and 6 of an object, and the words that GROUP sections find in its file.
#[derive(Clone, Copy)]
struct Listing {
    first: SectionHeader,
    second: SectionHeader,
    words: [u32; 6],
}

fn put_symbol(bytes: &mut Vec<u8>, symbol: &Symbol) -> Result<(), AllocError> {
    let mut record = [0; 24];
    symbol.write_to(&mut record);
    bytes.extend_from_slice(&record)
}

/// The bytes of an object up to its section headers.
fn contents_of(alloc: Global, words: &[u32]) -> Result<Vec<u8>, AllocError> {
    let mut bytes = Vec::new(alloc);
    let mut record = [0; 64];
    HEADER.write_to(&mut record);
    bytes.extend_from_slice(&record)?;
    bytes.extend_from_slice(&[0; 16])?;
    put_symbol(&mut bytes, &Symbol::NULL)?;
    put_symbol(&mut bytes, &F)?;
    put_symbol(&mut bytes, &G)?;
    bytes.extend_from_slice(b"\0f\0g\0\0\0\0")?;
    for word in words {
        bytes.extend_from_slice(&word.to_le_bytes())?;
    }
    Ok(bytes)
}

/// An object of seven sections with a section of symbols as number 3.
fn object_of(
    alloc: Global,
    symbols: &SectionHeader,
    listing: &Listing,
) -> Result<Vec<u8>, AllocError> {
    let mut bytes = contents_of(alloc, &listing.words)?;
    put_section(&mut bytes, &SectionHeader::NULL)?;
    put_section(&mut bytes, &TEXT)?;
    put_section(&mut bytes, &TEXT)?;
    put_section(&mut bytes, symbols)?;
    put_section(&mut bytes, &STRINGS)?;
    put_section(&mut bytes, &listing.first)?;
    put_section(&mut bytes, &listing.second)?;
    Ok(bytes)
}

/// What becomes of such an object.
fn outcome_of(alloc: Global, symbols: &SectionHeader, listing: &Listing) -> Result<String, Fail> {
    let bytes = object_of(alloc, symbols, listing)?;
    outcome(alloc, &bytes)
}

/// Section 5, the first two words, and what becomes of the object.
static GROUP_SECTIONS: [(SectionHeader, [u32; 2], &str); 17] = [
    (GROUP_F, [1, 1], "read"),
    (GROUP_F, [2, 1], "read"),
    (
        SectionHeader {
            sh_entsize: 0,
            ..GROUP_F
        },
        [1, 1],
        "read",
    ),
    (
        SectionHeader {
            sh_info: 0,
            ..GROUP_F
        },
        [1, 1],
        "read",
    ),
    (
        SectionHeader {
            sh_size: 4,
            ..GROUP_F
        },
        [1, 0],
        "read",
    ),
    // A section of type NULL may be a member.
    (GROUP_F, [1, 6], "read"),
    (GROUP_F, [1, 0], "BadGroup (11)"),
    (GROUP_F, [1, 3], "BadGroup (11)"),
    (GROUP_F, [1, 4], "BadGroup (11)"),
    (GROUP_F, [1, 5], "BadGroup (11)"),
    (GROUP_F, [1, 7], "BadGroup (11)"),
    (
        SectionHeader {
            sh_size: 0,
            ..GROUP_F
        },
        [1, 1],
        "BadGroup (11)",
    ),
    (
        SectionHeader {
            sh_size: 6,
            ..GROUP_F
        },
        [1, 1],
        "BadGroup (11)",
    ),
    (
        SectionHeader {
            sh_link: 4,
            ..GROUP_F
        },
        [1, 1],
        "BadGroup (11)",
    ),
    (
        SectionHeader {
            sh_info: 3,
            ..GROUP_F
        },
        [1, 1],
        "BadGroup (11)",
    ),
    (
        SectionHeader {
            sh_offset: 628,
            ..GROUP_F
        },
        [1, 1],
        "BadSectionRange (7)",
    ),
    (
        SectionHeader {
            sh_offset: u64::MAX,
            ..GROUP_F
        },
        [1, 1],
        "BadSectionRange (7)",
    ),
];

#[test]
fn good_group_sections_are_read(rt: HostRuntime) -> Result<(), Fail> {
    for (group, words, text) in &GROUP_SECTIONS {
        let listing = Listing {
            first: *group,
            second: SectionHeader::NULL,
            words: [words[0], words[1], 0, 0, 0, 0],
        };
        let told = outcome_of(rt.alloc(), &SYMBOLS, &listing)?;
        assert_eq!(rt; told.as_str(), *text, "{words:?}");
    }
    let told = outcome_of(rt.alloc(), &TEXT, &PLAIN_GROUPS)?;
    assert_eq!(rt; told.as_str(), "BadGroup (11)", "without a symbol table");
    Ok(())
}

/// Two groups without flags, of which the second lists a section twice.
static PLAIN_GROUPS: Listing = Listing {
    first: GROUP_F,
    second: LATER_G,
    words: [0, 1, 0, 0, 2, 2],
};

/// The groups of an object, each with its section, its flags, the bytes of its signature and its members.
fn groups_of(alloc: Global, bytes: &[u8]) -> Result<String, Fail> {
    let object = ObjectFile::read(alloc, View::new(bytes))?;
    let mut text = String::new(alloc);
    for group in object.groups() {
        let signature = group.signature();
        let members = group.members();
        let line = format!(in alloc;
            "{} {} {:?} {:?};",
            group.section(),
            group.flags(),
            signature,
            members
        )?;
        text.push_str(line.as_str())?;
    }
    Ok(text)
}

#[test]
fn groups_are_told(rt: HostRuntime) -> Result<(), Fail> {
    let listing = Listing {
        first: LATER_G,
        second: GROUP_F,
        words: [1, 1, 0, 0, 2, 2],
    };
    let bytes = object_of(rt.alloc(), &SYMBOLS, &listing)?;
    assert_eq!(rt;
        groups_of(rt.alloc(), &bytes)?.as_str(),
        "5 0 [103] [2, 2];6 1 [102] [1];"
    );
    Ok(())
}

/// No group, a COMDAT group of `f`, and one of `f` without flags.
const NO_GROUP: Listing = Listing {
    first: SectionHeader::NULL,
    second: SectionHeader::NULL,
    words: [0; 6],
};

const COMDAT_F: Listing = Listing {
    first: GROUP_F,
    words: [1, 1, 0, 0, 0, 0],
    ..NO_GROUP
};

const PLAIN_F: Listing = Listing {
    words: [0, 1, 0, 0, 0, 0],
    ..COMDAT_F
};

/// Objects that are loaded one after the other, and what the second one loses, or its fault.
static ADMISSIONS: [(Listing, Listing, &str); 12] = [
    // Two COMDAT groups of one signature.
    (COMDAT_F, COMDAT_F, "[1]"),
    // Of two signatures.
    (
        COMDAT_F,
        Listing {
            first: LATER_G,
            words: [0, 0, 0, 1, 2, 1],
            ..NO_GROUP
        },
        "[]",
    ),
    // Groups without flags drop nothing, and aren't seen.
    (PLAIN_F, COMDAT_F, "[]"),
    (COMDAT_F, PLAIN_F, "[]"),
    // Members are told ascending, each once.
    (
        COMDAT_F,
        Listing {
            first: LATER_F,
            words: [0, 0, 0, 1, 2, 1],
            ..NO_GROUP
        },
        "[1, 2]",
    ),
    (
        COMDAT_F,
        Listing {
            first: LATER_F,
            words: [0, 0, 0, 1, 2, 2],
            ..NO_GROUP
        },
        "[2]",
    ),
    // Two COMDAT groups of one signature in one object.
    (
        NO_GROUP,
        Listing {
            second: LATER_F,
            words: [1, 1, 0, 1, 2, 2],
            ..COMDAT_F
        },
        "[2]",
    ),
    // Lawful and unlawful groups.
    (
        NO_GROUP,
        Listing {
            first: NAMELESS,
            ..COMDAT_F
        },
        "NamelessSignature (2)",
    ),
    (
        NO_GROUP,
        Listing {
            first: NAMELESS,
            ..PLAIN_F
        },
        "[]",
    ),
    (
        NO_GROUP,
        Listing {
            words: [2, 1, 0, 0, 0, 0],
            ..COMDAT_F
        },
        "BadFlags (3)",
    ),
    (
        NO_GROUP,
        Listing {
            second: LATER_G,
            words: [1, 1, 0, 0, 1, 2],
            ..COMDAT_F
        },
        "TwoGroups (4)",
    ),
    // A refused object's groups aren't admitted.
    (
        Listing {
            second: LATER_G,
            words: [1, 1, 0, 1, 1, 2],
            ..COMDAT_F
        },
        COMDAT_F,
        "[]",
    ),
];

fn admitted<'a>(alloc: Global, groups: &mut Groups<'a>, bytes: &'a [u8]) -> Result<String, Fail> {
    let object = ObjectFile::read(alloc, View::new(bytes))?;
    let text = match groups.admit(&object) {
        Ok(dropped) => format!(in alloc; "{:?}", dropped.sections())?,
        Err(fault) => format!(in alloc; "{fault}")?,
    };
    Ok(text)
}

/// What is answered of the second of two objects.
fn second_answer(alloc: Global, first: &Listing, second: &Listing) -> Result<String, Fail> {
    let first = object_of(alloc, &SYMBOLS, first)?;
    let second = object_of(alloc, &SYMBOLS, second)?;
    let mut groups = Groups::new(alloc);
    admitted(alloc, &mut groups, &first)?;
    admitted(alloc, &mut groups, &second)
}

#[test]
fn groups_are_admitted_in_load_order(rt: HostRuntime) -> Result<(), Fail> {
    for (first, second, text) in &ADMISSIONS {
        assert_eq!(rt; second_answer(rt.alloc(), first, second)?.as_str(), *text);
    }
    Ok(())
}
