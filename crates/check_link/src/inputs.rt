//! Reads the words and the map of a link: the first clause.
ghost use Rattle.std.specs.Prelude.{◌≡◌, IfOk, IfSome, IsSomeAnd, None, Ok};
ghost use Rattle.elf_model.specs.Inputs.Command as command;
ghost use Rattle.elf_model.specs.Inputs.Command.{command_of};
ghost use Rattle.elf_model.specs.Inputs.Files.{words_of};
ghost use Rattle.elf_model.specs.Image.MapRecord.{MapRecord};
ghost use Rattle.linkmap.specs.Record.{record_of};
ghost use Rattle.elf_model.specs.Image.MapText.{IsMap, text};

use command::{CmdFault, Plan, read_words};
use elf_model::MapFault;
use linkmap::BorrowedMap;
use std::alloc::{AllocError, Global};

/// The plan that the words make; None where they are no command.
pub fn read_plan<'a>(alloc: Global, words: &'a [String]) -> Result<Option<Plan<'a>>, AllocError>
    ensures plan { IfOk result (λ o. IfSome o (λ p. command_of (words_of words.entry.now) ≡ Ok p)) }
    ensures only { IfOk result (λ o. (p : command.Plan) →
        command_of (words_of words.entry.now) ≡ Ok p → IsSomeAnd o (λ q. q ≡ p)) }
{
    match read_words(alloc, words) {
        Ok(plan) => Ok(Some(plan)),
        Err(CmdFault::Memory) => Err(AllocError),
        Err(_) => Ok(None),
    }
}

/// The map that the bytes spell; None where they are no map's text.
pub fn read_map(alloc: Global, bytes: &[u8]) -> Result<Option<BorrowedMap<'_>>, AllocError>
    ensures map { IfOk result (λ o.
        IfSome o (λ m. IsMap (record_of m) × (bytes.now ≡ text (record_of m)))) }
    ensures only { IfOk result (λ o. (m : MapRecord) →
        IsMap m → bytes.now ≡ text m → IsSomeAnd o (λ n. record_of n ≡ m)) }
{
    match linkmap::read_borrowed(alloc, bytes) {
        Ok(map) => Ok(Some(map)),
        Err(MapFault::Memory) => Err(AllocError),
        Err(MapFault::Line(_)) => Ok(None),
    }
}
