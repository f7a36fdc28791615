//! The bytes between the pieces: `nop` in the file part of the code's segment, and 0 everywhere else.
ghost use Rattle.std.specs.Prelude.{◌≡◌, ◌≤◌, All};
ghost use Rattle.image_write.specs.Parts.{EndsLow, code_part, fill_run};
ghost use Rattle.image_write.specs.Streams.{Puts, stream};

use crate::buffer::Buffer;
use crate::sink::{Sink, SinkFault};
use crate::stream::put_run;
use elf_model::{PF_R, PF_X, ProgramHeader};

/// The byte `nop`, with which executable parts are filled.
const NOP: u8 = 0x90;

/// The addresses of the file part of the code's segment.
#[derive(Clone, Copy, Debug)]
pub struct Code {
    pub start: u64,
    pub end: u64,
}

/// Where the first executable one of the segments has its file part; nowhere where there is none.
pub fn code_of(segments: &[ProgramHeader]) -> Code
    requires { All EndsLow segments.now }
    ensures { result ≡ code_part segments.now }
{
    for segment in segments {
        if segment.p_flags == PF_R | PF_X {
            return Code {
                start: segment.p_vaddr,
                end: segment.p_vaddr + segment.p_filesz,
            };
        }
    }
    Code { start: 0, end: 0 }
}

/// Puts the fill of the addresses from one to before another.
pub fn fill<S: Sink>(
    sink: &mut S,
    buffer: &mut Buffer,
    code: &Code,
    from: u64,
    to: u64,
) -> Result<(), SinkFault>
    requires order { from ≤ to }
    requires whole { S.failed sink.old ≡ 0 }
    ensures { Puts (stream (S.told sink.old) buffer.old (S.failed sink.old))
        (fill_run code.now from to) result
        (stream (S.told sink.new) buffer.new (S.failed sink.new)) }
{
    let start = from.max(code.start).min(to);
    let end = start.max(code.end).min(to);
    put_run(sink, buffer, start - from, 0)?;
    put_run(sink, buffer, end - start, NOP)?;
    put_run(sink, buffer, to - end, 0)
}
