//! The bytes between pieces: `nop` in the file part of the code's segment, and 0 everywhere else.
use link_samples::links::{File, Row, Wanted, first_wrong};
use link_samples::objects::Section;
use link_samples::parts::{DATA, RODATA, START, TEXT};
use std::test::Fail;

/// Read-only data of five bytes.
const FIVE: Section<'static> = Section {
    sh_addralign: 4,
    bytes: &[1, 2, 3, 4, 5],
    ..RODATA
};

static LINKS: [Row; 2] = [
    // Code at 0x401000 to 0x402019, with pieces of nine bytes at 0x402000 and 0x402010, and data at 0x403000.
    (
        &[
            File::Object(
                "a.o",
                &[
                    Section {
                        sh_addralign: 0x2000,
                        ..TEXT
                    },
                    DATA,
                ],
                &[START],
                &[],
            ),
            File::Object(
                "b.o",
                &[Section {
                    sh_addralign: 16,
                    ..TEXT
                }],
                &[],
                &[],
            ),
        ],
        "a.o b.o",
        Wanted::Linked(
            0x3008,
            &[
                (0xffe, &[0, 0, 0x90, 0x90]),
                (0x1ffe, &[0x90, 0x90, 0xb8, 0x3c]),
                (0x2007, &[0x0f, 0x05, 0x90, 0x90]),
                (0x2017, &[0x0f, 0x05, 0, 0]),
                (0x2ffe, &[0; 10]),
            ],
            b"",
        ),
    ),
    // Without code: two segments' headers end at 176, where the first piece of five bytes stands; the next one at 192.
    (
        &[
            File::Object("a.o", &[FIVE], &[START], &[]),
            File::Object(
                "b.o",
                &[Section {
                    sh_addralign: 16,
                    ..FIVE
                }],
                &[],
                &[],
            ),
        ],
        "a.o b.o",
        Wanted::Linked(
            197,
            &[
                (176, &[1, 2, 3, 4, 5]),
                (181, &[0; 11]),
                (192, &[1, 2, 3, 4, 5]),
            ],
            b"",
        ),
    ),
];

#[test]
fn code_is_filled_with_nop(rt: HostRuntime) -> Result<(), Fail> {
    assert_eq!(rt; first_wrong(rt.alloc(), &LINKS)?, None);
    Ok(())
}
