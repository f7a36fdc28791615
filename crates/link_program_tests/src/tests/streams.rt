//! Images that are written to devices which take a byte at a time, and fail; files from a source in memory.
ghost use Rattle.std.specs.Prelude.{◌≡◌, None, Some, cond};
ghost use Rattle.std.specs.Str.{bytes_eq};

use command::read_words;
use ld_main::{
    FetchFault, FileSource, GatherFault, Linkage, Sink, SinkFault, WriteFault, gather, prepare,
    write_image,
};
use link_samples::objects::{Relocation, Section, relocatable};
use link_samples::one_object::{one_file, words_of};
use link_samples::parts::{DATA, R_64, SECTION_2, START, TEXT};
use link_samples::vectors::{OBJECT, image};
use std::alloc::Global;
use std::process::Abort;
use std::test::Fail;

/// A device that takes a byte a call, and none from call number `limit` on, from 0.
#[derive(Drop)]
struct Slow {
    taken: Vec<u8>,
    calls: u64,
    limit: u64,
    failures: u64,
}

impl Slow {
    fn new(alloc: Global, limit: u64) -> Slow
        ensures { result.failures ≡ 0 }
    {
        Slow {
            taken: Vec::new(alloc),
            calls: 0,
            limit,
            failures: 0,
        }
    }
}

impl Sink for Slow {
    ghost told = { λ s. Some s.taken.items };

    ghost failed = { λ s. s.failures };

    fn put(&mut self, bytes: &[u8]) -> Result<usize, SinkFault> {
        let call = self.calls;
        self.calls = call.saturating_add(1);
        if call >= self.limit || self.taken.push(bytes[0]).is_err() {
            self.failures += 1;
            return Err(SinkFault);
        }
        Ok(1)
    }

    fn failures(&self) -> u64 {
        self.failures
    }
}

/// What writing a link to a device that fails at a call comes to: the fault, the bytes that were taken, the number of
/// calls and that of failures.
fn written(alloc: Global, linkage: &Linkage<'_>, limit: u64) -> (Result<(), WriteFault>, Slow) {
    let mut sink = Slow::new(alloc, limit);
    let result = write_image(alloc, linkage, &mut sink);
    (result, sink)
}

/// Asserts that the image of the object is written byte by byte.
fn assert_written<R: Abort + AllocGlobal>(rt: &R, linkage: &Linkage<'_>) -> Result<(), Fail> {
    let (result, sink) = written(rt.alloc(), linkage, u64::MAX);
    result?;
    assert!(rt; (sink.calls, sink.failures) == (4105, 0));
    assert!(rt; sink.taken == image(rt.alloc())?);
    Ok(())
}

#[test]
fn an_image_is_written_byte_by_byte(rt: HostRuntime) -> Result<(), Fail> {
    let files = one_file(rt.alloc(), "a.o", &OBJECT)?;
    let words = words_of(rt.alloc(), "-s a.o")?;
    let linkage = prepare(rt.alloc(), &files, &words)?;
    assert_written(&rt, &linkage)
}

/// Whether a device that fails at a call has taken just the bytes before it, and was called no more.
fn breaks_at(alloc: Global, linkage: &Linkage<'_>, whole: &[u8], call: usize) -> bool {
    let (result, sink) = written(alloc, linkage, call as u64);
    let front = whole.get(..call);
    matches!(result, Err(WriteFault::Device))
        && front == Some(sink.taken.as_slice())
        && (sink.calls, sink.failures) == ((call as u64).saturating_add(1), 1)
}

/// Asserts it of a device that fails, at each call.
fn assert_breaks<R: Abort + AllocGlobal>(rt: &R, linkage: &Linkage<'_>) -> Result<(), Fail> {
    let whole = image(rt.alloc())?;
    for call in 0..whole.len() {
        assert!(rt; breaks_at(rt.alloc(), linkage, &whole, call), "{call}");
    }
    Ok(())
}

#[test]
fn a_device_that_fails_has_a_beginning_of_the_image(rt: HostRuntime) -> Result<(), Fail> {
    let files = one_file(rt.alloc(), "a.o", &OBJECT)?;
    let words = words_of(rt.alloc(), "-s a.o")?;
    let linkage = prepare(rt.alloc(), &files, &words)?;
    assert_breaks(&rt, &linkage)
}

static ZEROS: [u8; 8192] = [0; 8192];

/// An object with the text, and 8192 bytes of data whose bytes 4092 to 4099 are to hold the address of the first.
fn across(alloc: Global) -> Result<Vec<u8>, Fail> {
    let data_ = Section {
        bytes: &ZEROS,
        ..DATA
    };
    let relocations = [Relocation(2, 4092, R_64, 1, 0)];
    relocatable(alloc, &[TEXT, data_], &[SECTION_2, START], &relocations)
}

/// The bytes that its data are to be.
fn data_across(alloc: Global) -> Result<Vec<u8>, Fail> {
    let mut wanted = Vec::new(alloc);
    wanted.resize(4092, 0)?;
    wanted.extend_from_slice(&[0, 0x20, 0x40, 0, 0, 0, 0, 0])?;
    wanted.resize(8192, 0)?;
    Ok(wanted)
}

/// Asserts that the written image has these bytes, and is the whole image.
fn assert_across<R: Abort + AllocGlobal>(rt: &R, linkage: &Linkage<'_>) -> Result<(), Fail> {
    let (result, sink) = written(rt.alloc(), linkage, u64::MAX);
    result?;
    let data = sink.taken.get(0x2000..);
    assert!(rt; data == Some(data_across(rt.alloc())?.as_slice()));
    assert!(rt; sink.taken == ld_main::image(rt.alloc(), linkage)?);
    Ok(())
}

#[test]
fn a_field_may_lie_across_the_end_of_the_buffer(rt: HostRuntime) -> Result<(), Fail> {
    let object = across(rt.alloc())?;
    let files = one_file(rt.alloc(), "a.o", &object)?;
    let words = words_of(rt.alloc(), "-s a.o")?;
    let linkage = prepare(rt.alloc(), &files, &words)?;
    assert_across(&rt, &linkage)
}

/// One file in memory, and one that can't be read.
#[derive(Drop)]
struct Shelf {
    alloc: Global,
    path: &'static str,
    bytes: &'static [u8],
    broken: &'static str,
    failures: u64,
}

impl FileSource for Shelf {
    ghost files = { λ s. Some (λ p. cond (bytes_eq p s.broken.now) None (cond (bytes_eq p s.path.now) (Some s.bytes.now) None)) };

    ghost failed = { λ s. s.failures };

    fn fetch(&mut self, path: &str) -> Result<Option<Vec<u8>>, FetchFault> {
        if path == self.broken {
            self.failures += 1;
            return Err(FetchFault::Device);
        }
        if path != self.path {
            return Ok(None);
        }
        match Vec::from_slice(self.alloc, self.bytes) {
            Ok(bytes) => Ok(Some(bytes)),
            Err(_) => Err(FetchFault::Memory),
        }
    }

    fn failures(&self) -> u64 {
        self.failures
    }
}

/// The names of the files that are gathered for a command line where only `b.o` is there, or the path that wasn't read;
/// and the number of failures.
fn gathered(alloc: Global, line: &str, broken: &'static str) -> Result<(String, u64), Fail> {
    let words = words_of(alloc, line)?;
    let plan = read_words(alloc, &words)?;
    let mut shelf = Shelf {
        alloc,
        path: "b.o",
        bytes: &OBJECT,
        broken,
        failures: 0,
    };
    let told = match gather(alloc, &plan, &mut shelf) {
        Ok(files) => match files.as_slice() {
            [file] if file.bytes.as_slice() == OBJECT.as_slice() => format!(in alloc;
                "got {}",
                file.name
            )?,
            other => format!(in alloc; "got {} files", other.len())?,
        },
        Err(GatherFault::CannotRead(path)) => format!(in alloc; "cannot read {path}")?,
        Err(GatherFault::Memory) => return Err(Fail::from("memory")),
    };
    Ok((told, shelf.failures()))
}

#[test]
fn files_are_gathered_from_a_source(rt: HostRuntime) -> Result<(), Fail> {
    let rows = [
        ("a.o -Llib -lx b.o", "-", "got b.o", 0),
        ("a.o -Llib -lx b.o b.o", "-", "got b.o", 0),
        ("a.o -Llib -lx", "-", "got 0 files", 0),
        (
            "a.o -Llib -lx b.o",
            "lib/libx.a",
            "cannot read lib/libx.a",
            1,
        ),
        ("a.o b.o", "b.o", "cannot read b.o", 1),
    ];
    for (line, broken, told, failures) in rows {
        let answer = gathered(rt.alloc(), line, broken)?;
        assert!(rt; answer.0.as_str() == told && answer.1 == failures, "{line}");
    }
    Ok(())
}
