//! How words of the command that are refused read.

use elf_model::CmdFault;
use input_names::Called;
use std::fmt;
use std::fmt::{Formatter, Write};

/// What is said of a fault beside its name: of that at a word, or of all words together.
fn word_hint(word: Option<&str>, fault: CmdFault) -> &'static str {
    match (fault, word) {
        (CmdFault::BadNumber, _) => {
            ": a base is 0x and hexadecimal digits, a multiple of 4096 from 0x1000 on and below 2^46"
        }
        (CmdFault::GroupNesting, None) => ": --start-group is not closed: --end-group is missing",
        (CmdFault::GroupNesting, Some(word)) => {
            if word == "--end-group" || word == "-)" {
                ": no --start-group is before it"
            } else {
                ": a group in a group: --end-group is missing before it"
            }
        }
        _ => "",
    }
}

/// The word that has a fault, by its number in the command, or all words together.
#[derive(Clone, Copy)]
pub struct WordText<'w> {
    pub words: &'w [String],
    pub number: Option<u64>,
    pub fault: CmdFault,
}

impl fmt::Display for WordText<'_> {
    fn fmt<W: Write>(&self, f: &mut Formatter<W>) -> fmt::Result {
        let fault = self.fault;
        let Some(number) = self.number else {
            return write!(f, "the words together: {fault}{}", word_hint(None, fault));
        };
        let word = self.words.get(number as usize);
        let word = word.map_or("", |word| word.as_str());
        let name = Called("", Some(word.as_bytes()));
        write!(
            f,
            "word {number}{name}: {fault}{}",
            word_hint(Some(word), fault)
        )
    }
}
