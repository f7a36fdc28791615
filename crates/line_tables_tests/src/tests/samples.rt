//! Line tables of two sources and two sections, with what other tools read of them: `addr2line` of what compilers made, and
//! `llvm-dwarfdump --debug-line` of what was made by hand.
//!
//! The sources are `a.c` and `inc/h.h`: `one` of `a.c` calls a function and is in `.text`, `two` is in `.text.two` and has a
//! function of `inc/h.h` inlined. gcc is of version 12, clang of 14.

/// A field with a relocation: its offset, the type, the section whose symbol it is to, and the addend.
#[derive(Clone, Copy)]
pub struct Field(pub u64, pub u32, pub u32, pub i64);

/// A line table.
#[derive(Clone, Copy)]
pub struct Sample {
    /// The bytes of `.debug_line`, section 3, and of the section of its strings, section 4.
    pub lines: &'static [u8],
    pub strings: &'static [u8],
    pub fields: &'static [Field],
    /// From which offset on of sections 1 and 2 the answer is which one.
    pub wanted: &'static str,
}

const R_64: u32 = 1;

const R_32: u32 = 10;

/// gcc -gdwarf-3: directories and files by texts, numbered from 1.
pub static GCC_3: Sample = Sample {
    lines: b"\x91\0\0\0\x03\0\x25\0\0\0\x01\x01\xfb\x0e\x0d\0\x01\x01\x01\x01\0\0\0\x01\0\0\x01inc\0\0a.c\0\0\0\0h.h\0\x01\0\0\0\x05\x10\0\x09\x02\0\0\0\0\0\0\0\0\x15\x06\x01\x05\x05\x06K\x05\x0d\x06\x01\x05\x05\x06Y\x05\x0e\x06\x01\x05\x01g\x02\x05\0\x01\x01\x056\0\x09\x02\0\0\0\0\0\0\0\0\x1a\x06\x01\x05\x05\x06\x83\x04\x02\x05\x13\x03x\x01\x05\x05\x13\x05\x0c\x06\x01X.\x04\x01\x05\x0b\x1a\x04\x02\x05\x11\x03x\x9e\x04\x01\x05\x09D\x05\x01\x3df\x02\x01\0\x01\x01",
    strings: b"",
    fields: &[Field(52, R_64, 1, 0), Field(92, R_64, 2, 0)],
    wanted: "1+0 a.c:4; 1+4 a.c:5; 1+9 a.c:6; 1+15 a.c:7; 1+20 none; 2+0 a.c:9; 2+8 inc/h.h:3; 2+15 a.c:11; 2+25 inc/h.h:3; 2+28 a.c:11; 2+31 a.c:12; 2+38 none",
};

/// gcc -gdwarf-4.
pub static GCC_4: Sample = Sample {
    lines: b"\x92\0\0\0\x04\0\x26\0\0\0\x01\x01\x01\xfb\x0e\x0d\0\x01\x01\x01\x01\0\0\0\x01\0\0\x01inc\0\0a.c\0\0\0\0h.h\0\x01\0\0\0\x05\x10\0\x09\x02\0\0\0\0\0\0\0\0\x15\x06\x01\x05\x05\x06K\x05\x0d\x06\x01\x05\x05\x06Y\x05\x0e\x06\x01\x05\x01g\x02\x05\0\x01\x01\x056\0\x09\x02\0\0\0\0\0\0\0\0\x1a\x06\x01\x05\x05\x06\x83\x04\x02\x05\x13\x03x\x01\x05\x05\x13\x05\x0c\x06\x01X.\x04\x01\x05\x0b\x1a\x04\x02\x05\x11\x03x\x9e\x04\x01\x05\x09D\x05\x01\x3df\x02\x01\0\x01\x01",
    strings: b"",
    fields: &[Field(53, R_64, 1, 0), Field(93, R_64, 2, 0)],
    wanted: "1+0 a.c:4; 1+4 a.c:5; 1+9 a.c:6; 1+15 a.c:7; 1+20 none; 2+0 a.c:9; 2+8 inc/h.h:3; 2+15 a.c:11; 2+25 inc/h.h:3; 2+28 a.c:11; 2+31 a.c:12; 2+38 none",
};

/// gcc -gdwarf-5: texts in a section of their own, numbered from 0.
pub static GCC_5: Sample = Sample {
    lines: b"\xa1\0\0\0\x05\0\x08\03\0\0\0\x01\x01\x01\xfb\x0e\x0d\0\x01\x01\x01\x01\0\0\0\x01\0\0\x01\x01\x01\x1f\x02\0\0\0\0\0\0\0\0\x02\x01\x1f\x02\x0f\x03\0\0\0\0\0\0\0\0\0\0\0\0\0\0\x01\x05\x10\0\x09\x02\0\0\0\0\0\0\0\0\x15\x06\x01\x05\x05\x06K\x05\x0d\x06\x01\x05\x05\x06Y\x05\x0e\x06\x01\x05\x01g\x02\x05\0\x01\x01\x056\0\x09\x02\0\0\0\0\0\0\0\0\x1a\x06\x01\x05\x05\x06\x83\x04\x02\x05\x13\x03x\x01\x05\x05\x13\x05\x0c\x06\x01X.\x04\x01\x05\x0b\x1a\x04\x02\x05\x11\x03x\x9e\x04\x01\x05\x09D\x05\x01\x3df\x02\x01\0\x01\x01",
    strings: b"/w\0a.c\0/w\0inc\0a.c\0a.c\0h.h\0",
    fields: &[
        Field(34, R_32, 4, 7),
        Field(38, R_32, 4, 10),
        Field(48, R_32, 4, 14),
        Field(53, R_32, 4, 18),
        Field(58, R_32, 4, 22),
        Field(68, R_64, 1, 0),
        Field(108, R_64, 2, 0),
    ],
    wanted: "1+0 a.c:4; 1+4 a.c:5; 1+9 a.c:6; 1+15 a.c:7; 1+20 none; 2+0 a.c:9; 2+8 inc/h.h:3; 2+15 a.c:11; 2+25 inc/h.h:3; 2+28 a.c:11; 2+31 a.c:12; 2+38 none",
};

/// clang -gdwarf-2.
pub static CLANG_2: Sample = Sample {
    lines: b"x\0\0\0\x02\0\x25\0\0\0\x01\x01\xfb\x0e\x0d\0\x01\x01\x01\x01\0\0\0\x01\0\0\x01inc\0\0a.c\0\0\0\0h.h\0\x01\0\0\0\0\x09\x02\0\0\0\0\0\0\0\0\x15\x05\x0d\x0a\x21\x05\x10Y\x05\x0e\x06t\x05\x05.\x02\x02\0\x01\x01\0\x09\x02\0\0\0\0\0\0\0\0\x1a\x04\x02\x05\x0c\x0a\x03zX\x05\x11\x06t\x04\x01\x05\x0f\x06D\x05\x0b\x06\x3c\x05\x09t\x05\x05\x06\x3b\x02\x07\0\x01\x01",
    strings: b"",
    fields: &[Field(50, R_64, 1, 0), Field(81, R_64, 2, 0)],
    wanted: "1+0 a.c:4; 1+1 a.c:5; 1+6 a.c:6; 1+17 none; 2+0 a.c:9; 2+5 inc/h.h:3; 2+15 a.c:11; 2+28 a.c:10; 2+35 none",
};

/// clang -gdwarf-4.
pub static CLANG_4: Sample = Sample {
    lines: b"y\0\0\0\x04\0\x26\0\0\0\x01\x01\x01\xfb\x0e\x0d\0\x01\x01\x01\x01\0\0\0\x01\0\0\x01inc\0\0a.c\0\0\0\0h.h\0\x01\0\0\0\0\x09\x02\0\0\0\0\0\0\0\0\x15\x05\x0d\x0a\x21\x05\x10Y\x05\x0e\x06t\x05\x05.\x02\x02\0\x01\x01\0\x09\x02\0\0\0\0\0\0\0\0\x1a\x04\x02\x05\x0c\x0a\x03zX\x05\x11\x06t\x04\x01\x05\x0f\x06D\x05\x0b\x06\x3c\x05\x09t\x05\x05\x06\x3b\x02\x07\0\x01\x01",
    strings: b"",
    fields: &[Field(51, R_64, 1, 0), Field(82, R_64, 2, 0)],
    wanted: "1+0 a.c:4; 1+1 a.c:5; 1+6 a.c:6; 1+17 none; 2+0 a.c:9; 2+5 inc/h.h:3; 2+15 a.c:11; 2+28 a.c:10; 2+35 none",
};

/// clang -gdwarf-5: files have a checksum of 16 bytes.
pub static CLANG_5: Sample = Sample {
    lines: b"\xa9\0\0\0\x05\0\x08\0P\0\0\0\x01\x01\x01\xfb\x0e\x0d\0\x01\x01\x01\x01\0\0\0\x01\0\0\x01\x01\x01\x1f\x02\0\0\0\0\0\0\0\0\x03\x01\x1f\x02\x0f\x05\x1e\x02\0\0\0\0\0\xec\xa4\x8e\xc1\xca\x99\x92G_\xc3\xc2-\x8e\xb5\x8a\x8c\0\0\0\0\x01r\xe1q\x8c\x28/\xd8\x29\xc05\x13\x1e\xf3\xedgU\x04\0\0\x09\x02\0\0\0\0\0\0\0\0\x15\x05\x0d\x0a\x21\x05\x10Y\x05\x0e\x06t\x05\x05.\x02\x02\0\x01\x01\x04\0\0\x09\x02\0\0\0\0\0\0\0\0\x1a\x04\x01\x05\x0c\x0a\x03zX\x05\x11\x06t\x04\0\x05\x0f\x06D\x05\x0b\x06\x3c\x05\x09t\x05\x05\x06\x3b\x02\x07\0\x01\x01",
    strings: b"/w\0inc\0a.c\0h.h\0",
    fields: &[
        Field(34, R_32, 4, 0),
        Field(38, R_32, 4, 3),
        Field(50, R_32, 4, 7),
        Field(71, R_32, 4, 11),
        Field(97, R_64, 1, 0),
        Field(130, R_64, 2, 0),
    ],
    wanted: "1+0 a.c:4; 1+1 a.c:5; 1+6 a.c:6; 1+17 none; 2+0 a.c:9; 2+5 inc/h.h:3; 2+15 a.c:11; 2+28 a.c:10; 2+35 none",
};

/// clang -gdwarf-5 -gdwarf64: lengths and offsets of eight bytes.
pub static CLANG_WIDE: Sample = Sample {
    lines: b"\xff\xff\xff\xff\xbd\0\0\0\0\0\0\0\x05\0\x08\0\x60\0\0\0\0\0\0\0\x01\x01\x01\xfb\x0e\x0d\0\x01\x01\x01\x01\0\0\0\x01\0\0\x01\x01\x01\x1f\x02\0\0\0\0\0\0\0\0\0\0\0\0\0\0\0\0\x03\x01\x1f\x02\x0f\x05\x1e\x02\0\0\0\0\0\0\0\0\0\xec\xa4\x8e\xc1\xca\x99\x92G_\xc3\xc2-\x8e\xb5\x8a\x8c\0\0\0\0\0\0\0\0\x01r\xe1q\x8c\x28/\xd8\x29\xc05\x13\x1e\xf3\xedgU\x04\0\0\x09\x02\0\0\0\0\0\0\0\0\x15\x05\x0d\x0a\x21\x05\x10Y\x05\x0e\x06t\x05\x05.\x02\x02\0\x01\x01\x04\0\0\x09\x02\0\0\0\0\0\0\0\0\x1a\x04\x01\x05\x0c\x0a\x03zX\x05\x11\x06t\x04\0\x05\x0f\x06D\x05\x0b\x06\x3c\x05\x09t\x05\x05\x06\x3b\x02\x07\0\x01\x01",
    strings: b"/w\0inc\0a.c\0h.h\0",
    fields: &[
        Field(46, R_64, 4, 0),
        Field(54, R_64, 4, 3),
        Field(70, R_64, 4, 7),
        Field(95, R_64, 4, 11),
        Field(125, R_64, 1, 0),
        Field(158, R_64, 2, 0),
    ],
    wanted: "1+0 a.c:4; 1+1 a.c:5; 1+6 a.c:6; 1+17 none; 2+0 a.c:9; 2+5 inc/h.h:3; 2+15 a.c:11; 2+28 a.c:10; 2+35 none",
};

/// Three units, the first of a version that isn't known; see `hand.s` there.
pub static BY_HAND: Sample = Sample {
    lines: b"\x06\0\0\0\x06\0\xff\xff\xff\xff\xb7\0\0\0\x05\0\x08\0i\0\0\0\x01\x01\x01\xfd\x0c\x0f\0\x01\x01\x01\x01\0\0\0\x01\0\0\x01\x01\x02\x01\x01\x08\x02/w\0lib\0\x06\x01\x0e\x02\x0b\x03\x06\x04\x09\x05\x1e\x81\x40\x05\x02\0\0\0\0\0M\0\0\0\x03\x01\x02\x03\0\0\0\0\0\0\0\0\0\0\0\0\0\0\0\0\x09\0\0\0\0\0\x01M\0\0\0\0\0\0\0\0\0\0\0\0\0\0\0\0\0\0\0\0\x09\0\0\x09\x02\0\0\0\0\0\0\0\0\x03\x09\x01\x0d\xac\x02\x0e\xac\x02\x01\x2b\x04\0\x05\x07\x06\x07\x02\x05\x03\xac\x02\x01\x0a\x0b\x0c\x03\x08\x03\xad\x7e\x01\0\x02\x04\x06\0\x04\x80\x01\x02\x03\x09\x03\0\x03\x9c\x7f\x01\x02\x02\x03\x08\x01\x02\x01\0\x01\x01\x7b\0\0\0\x02\0\x2a\0\0\0\x01\x01\xff\x04\x0a\0\x01\x01\x01\x01\0\0\0\x01d1\0d2/e\0\0z.c\0\0\xc8\x01\xac\x02w.h\0\x02\xc8\x01\xac\x02\0\0\x09\x02\0\0\0\0\0\0\0\0\x01\x19\x04\x02\x0f\x02\x04\0\x01\x01\0\x09\x02\0\0\0\0\0\0\0\0\x03\x3b\x04\x02\x01\0\x09\x02\0\0\0\0\0\0\0\0\x03\x01\x04\x01\x01\x02\x01\0\x01\x01\0\x09\x02\0\0\0\0\0\0\0\0\x01\x02\x08\0\x01\x01",
    strings: b"x\0x.c\0y.h\0",
    fields: &[
        Field(68, R_32, 4, 2),
        Field(99, R_32, 4, 6),
        Field(130, R_64, 1, 0),
        Field(252, R_64, 2, 8),
        Field(273, R_64, 1, 40),
        Field(289, R_64, 1, 44),
        Field(310, R_64, 2, 4),
    ],
    wanted: "1+0 lib/y.h:10; 1+2 lib/y.h:11; 1+7 x.c:311; 1+27 x.c:100; 1+30 none; 1+32 x.c:8; 1+33 none; 1+40 d2/e/w.h:60; 1+44 z.c:61; 1+45 none; 2+0 none; 2+4 z.c:1; 2+11 z.c:3; 2+12 d2/e/w.h:3; 2+16 none",
};
