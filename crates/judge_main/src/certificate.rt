//! A certificate from a text: a line `note ADDRESS SIZE` for each note that the linker made, `area ADDRESS SIZE` for each area of
//! merged strings and constants or of call frames, `merged OBJECT SECTION OFFSET SIZE ADDRESS` for each string and constant, `frames
//! ADDRESS SIZE` for the list of call frames and `frame OBJECT SECTION OFFSET SIZE ADDRESS` for each record of these, all in decimal
//! digits, and behind them a map (docs/MAP.md). Its lines say where the objects, sections, common blocks and the global offset table
//! are, and those of symbols that the linker defines give the values of these names. A judge takes none of it on trust, so nothing is
//! promised of it here.
use elf_model::{Definition, LinkMap, MapFault, SymbolLine};
use judge_model::{Certificate, MergedLine, NameLine, StretchLine};
use linkmap::read;
use std::alloc::{AllocError, Global};

/// The values of the names that the linker defines.
fn linkers_names(alloc: Global, symbols: Vec<SymbolLine>) -> Result<Vec<NameLine>, AllocError> {
    let mut names = Vec::new(alloc);
    for symbol in symbols {
        if let Definition::Linker = symbol.definition {
            names.push(NameLine {
                value: symbol.address,
                name: symbol.name,
            })?;
        }
    }
    Ok(names)
}

/// The lines in front of a map: notes, areas of merged strings and constants and of call frames, where each string and constant is, the
/// list of call frames, and where each record of these is.
#[derive(Debug, Drop)]
struct Front {
    notes: Vec<StretchLine>,
    areas: Vec<StretchLine>,
    merged: Vec<MergedLine>,
    list: Option<StretchLine>,
    frames: Vec<MergedLine>,
}

/// A line in front of a map.
#[derive(Clone, Copy, Debug)]
enum FrontLine {
    Note(StretchLine),
    Area(StretchLine),
    Merged(MergedLine),
    List(StretchLine),
    Frame(MergedLine),
}

/// The number at the beginning of a line, and what stands behind the space that follows it.
fn number_of(line: &str) -> Option<(u64, &str)> {
    let (number, rest) = line.split_once(' ')?;
    Some((number.parse::<u64>().ok()?, rest))
}

/// A stretch by its two numbers.
fn stretch_of(line: &str) -> Option<StretchLine> {
    let (address, size) = number_of(line)?;
    Some(StretchLine {
        address,
        size: size.parse::<u64>().ok()?,
    })
}

/// Where a string, a constant or a record is, by its five numbers.
fn merged_of(line: &str) -> Option<MergedLine> {
    let (object, rest) = number_of(line)?;
    let (section, rest) = number_of(rest)?;
    let (offset, rest) = number_of(rest)?;
    let (size, address) = number_of(rest)?;
    Some(MergedLine {
        object,
        section,
        offset,
        size,
        address: address.parse::<u64>().ok()?,
    })
}

/// The stretch of a line that begins with a word.
fn stretch_behind(line: &str, word: &str) -> Option<StretchLine> {
    stretch_of(line.strip_prefix(word)?)
}

/// What a line says that gives a stretch.
fn stretch_line(line: &str) -> Option<FrontLine> {
    if let Some(note) = stretch_behind(line, "note ") {
        return Some(FrontLine::Note(note));
    }
    if let Some(area) = stretch_behind(line, "area ") {
        return Some(FrontLine::Area(area));
    }
    Some(FrontLine::List(stretch_behind(line, "frames ")?))
}

/// Where that is of which a line begins with a word.
fn merged_behind(line: &str, word: &str) -> Option<MergedLine> {
    merged_of(line.strip_prefix(word)?)
}

/// What a line in front of a map says.
fn front_line_of(line: &str) -> Option<FrontLine> {
    if let Some(merged) = merged_behind(line, "merged ") {
        return Some(FrontLine::Merged(merged));
    }
    if let Some(frame) = merged_behind(line, "frame ") {
        return Some(FrontLine::Frame(frame));
    }
    stretch_line(line)
}

/// Whether a text begins with a line that stands in front of a map.
fn has_front_line(text: &[u8]) -> bool {
    if text.starts_with(b"note ") || text.starts_with(b"area ") {
        return true;
    }
    text.starts_with(b"merged ") || text.starts_with(b"frames ") || text.starts_with(b"frame ")
}

/// What the first line of a text says, and the text behind it.
fn first_line(text: &[u8]) -> Option<(FrontLine, &[u8])> {
    let end = text.iter().position(|b| *b == b'\n')?;
    let (line, behind) = text.split_at(end);
    let (_, rest) = behind.split_first()?;
    Some((front_line_of(str::from_utf8(line).ok()?)?, rest))
}

impl Front {
    /// Adds what a line says.
    fn add(&mut self, line: FrontLine) -> Result<(), AllocError> {
        match line {
            FrontLine::Note(note) => self.notes.push(note)?,
            FrontLine::Area(area) => self.areas.push(area)?,
            FrontLine::Merged(merged) => self.merged.push(merged)?,
            FrontLine::List(list) => self.list = Some(list),
            FrontLine::Frame(frame) => self.frames.push(frame)?,
        }
        Ok(())
    }
}

/// The lines in front of a map, how many they are, and the text behind them.
fn read_front<'t>(alloc: Global, text: &'t [u8]) -> Result<(Front, u64, &'t [u8]), MapFault> {
    let mut front = Front {
        notes: Vec::new(alloc),
        areas: Vec::new(alloc),
        merged: Vec::new(alloc),
        list: None,
        frames: Vec::new(alloc),
    };
    let mut rest = text;
    for count in 0..text.len() as u64 {
        if !has_front_line(rest) {
            return Ok((front, count, rest));
        }
        let Some((line, behind)) = first_line(rest) else {
            return Err(MapFault::Line(count + 1));
        };
        if front.add(line).is_err() {
            return Err(MapFault::Memory);
        }
        rest = behind;
    }
    Ok((front, text.len() as u64, rest))
}

/// The certificate of a map and the lines in front of it.
fn certificate_of(alloc: Global, front: Front, map: LinkMap) -> Result<Certificate, AllocError> {
    let got = match map.got {
        Some(line) => Some(line.address),
        None => None,
    };
    Ok(Certificate {
        objects: map.objects,
        drops: map.drops,
        places: map.places,
        commons: map.commons,
        notes: front.notes,
        areas: front.areas,
        merged: front.merged,
        list: front.list,
        frames: front.frames,
        names: linkers_names(alloc, map.symbols)?,
        got,
    })
}

/// A map's fault as one of the text that has so many lines in front of it.
fn behind_lines(fault: MapFault, count: u64) -> MapFault {
    match fault {
        MapFault::Memory => MapFault::Memory,
        MapFault::Line(line) => MapFault::Line(line.saturating_add(count)),
    }
}

/// The certificate that a text spells.
///
/// # Errors
///
/// Memory; or the first line, counted from 1, at which the text is no beginning of a certificate.
pub fn read_certificate(alloc: Global, text: &[u8]) -> Result<Certificate, MapFault> {
    let (front, count, rest) = read_front(alloc, text)?;
    let map = match read(alloc, rest) {
        Ok(map) => map,
        Err(fault) => return Err(behind_lines(fault, count)),
    };
    match certificate_of(alloc, front, map) {
        Ok(certificate) => Ok(certificate),
        Err(_) => Err(MapFault::Memory),
    }
}
