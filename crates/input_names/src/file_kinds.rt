//! What a file is that is no object and no archive of the profile, by its first bytes, for reading only.

const BITCODE: &str = "an LLVM bitcode file, which -flto makes in place of an object";

/// A kind of files, which have some bytes at an offset.
type Kind = (usize, &'static [u8], &'static str);

/// Files by their first bytes.
static MAGICS: [Kind; 11] = [
    (
        0,
        b"!<thin>\n",
        "a thin archive, which has no members of its own: ar makes one that has without T",
    ),
    (0, b"!<arch>\n", "an archive, whose name has to end in .a"),
    (0, b"BC\xc0\xde", BITCODE),
    (0, b"\xde\xc0\x17\x0b", BITCODE),
    (0, b"\xcf\xfa\xed\xfe", "a Mach-O file"),
    (0, b"\xce\xfa\xed\xfe", "a Mach-O file"),
    (0, b"\xca\xfe\xba\xbe", "a Mach-O file for several machines"),
    (0, b"MZ", "a program or library for Windows"),
    (0, b"\x64\x86", "a COFF object for x86-64"),
    (0, b"\x4c\x01", "a COFF object for i386"),
    (0, b"\x7fELF\x01", "an ELF file of 32 bits"),
];

/// What an ELF file of 64 bits is, where it has these bytes at an offset: by its machine (e_machine), where that isn't x86-64,
/// or by its type (e_type) before it.
static ELF_KINDS: [Kind; 9] = [
    (18, b"\x08\0", "for MIPS"),
    (18, b"\x15\0", "for PowerPC of 64 bits"),
    (18, b"\x16\0", "for S390"),
    (18, b"\xb7\0", "for AArch64"),
    (18, b"\xf3\0", "for RISC-V"),
    (18, b"\x02\x01", "for LoongArch"),
    (16, b"\x02\0\x3e\0", "an executable"),
    (
        16,
        b"\x03\0\x3e\0",
        "a shared object, or a position-independent executable",
    ),
    (16, b"\x04\0\x3e\0", "a core file"),
];

/// Whether the first bytes of a file are a text.
fn is_text(file: &[u8]) -> bool {
    file.iter()
        .take(256)
        .all(|b| (0x20..=0x7e).contains(b) || b.is_ascii_whitespace())
}

/// What a file is, where its first bytes tell.
pub fn file_kind(file: &[u8]) -> Option<&'static str> {
    let mut kinds = MAGICS.iter();
    if file.starts_with(b"\x7fELF\x02") {
        kinds = ELF_KINDS.iter();
    }
    let known = kinds.find(|(at, bytes, _)| file
        .get(*at..)
        .is_some_and(|rest| rest.starts_with(bytes)));
    match known {
        Some(kind) => Some(kind.2),
        None if file.is_empty() => Some("an empty file"),
        None if is_text(file) => Some("a text, as a source or a linker script"),
        None => None,
    }
}
