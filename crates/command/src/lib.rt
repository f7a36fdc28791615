//! Reads the words of a link's command, and lists the files that its plan may read.
//!
//! Spellings are those of ld(1). The profile takes these and no others, from left to right:
//!
//! - `-o FILE`, `-e SYM`, `-u SYM`: the image's path, the entry, an undefined name
//! - `-L DIR`, `-LDIR`: a directory, for every `-l` of the command
//! - `-l NAME`, `-lNAME`: an archive, the first `DIR/libNAME.a` there is
//! - `-Map=FILE`: the map's path
//! - `-Ttext-segment=ADDR`: the base, `0x` and 1 to 16 hexadecimal digits, a multiple of 4096, at least
//!   4096 and below 2^46
//! - `--start-group` or `-(`, `--end-group` or `-)`: a group of archives
//! - `--whole-archive`, `--no-whole-archive`: for the archives that follow
//! - `--check`: check an image in place of linking one; asks for `-Map=`
//! - `-s`: an image without a symbol table
//! - `-static`, `-nostdlib`, `-m elf_x86_64`: no effect
//! - any other nonempty word that doesn't begin with `-`: a file, an archive if it ends in `.a`
//!
//! Of a repeated `-o`, `-e`, `-Map=` or `-Ttext-segment=` the last one counts.
//!
//! Begin with `read_words`.
#![tactic(auto)]

mod items;
mod paths;
mod phrases;
mod plan_reader;

pub use elf_model::CmdFault;
pub use items::{Item, Plan, Source};
pub use paths::{candidates, library_path};
pub use plan_reader::{read_words, refused_word};
