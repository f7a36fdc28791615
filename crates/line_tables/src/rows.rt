//! The rows of a line table that a line program makes (DWARF 5, 6.2.2), of which only the last one is kept.
use crate::cursor::Cursor;
use crate::header::Unit;
use crate::program::{Instruction, next_instruction};
use crate::section::{Lines, Spot};

/// A row: a place, which is None before the sequence has an address, the number of its file, and its line.
#[derive(Clone, Copy)]
pub struct Row {
    at: Option<Spot>,
    pub file: u64,
    pub line: u64,
}

/// The registers at the beginning of a sequence.
const START: Row = Row {
    at: None,
    file: 1,
    line: 1,
};

impl Row {
    /// This row with numbers added to its address and its line.
    fn advanced(self, address: u64, line: i64) -> Row {
        let at = self.at.map(|at| Spot {
            section: at.section,
            offset: at.offset.wrapping_add(address),
        });
        Row {
            at,
            file: self.file,
            line: self.line.wrapping_add_signed(line),
        }
    }

    /// Whether a place is one from this row on and before the next one.
    fn covers(self, next: Row, place: Spot) -> bool {
        let (Some(from), Some(to)) = (self.at, next.at) else {
            return false;
        };
        from.section == place.section
            && to.section == place.section
            && from.offset <= place.offset
            && place.offset < to.offset
    }
}

/// A program as it runs: the registers, and the last row of the sequence.
#[derive(Clone, Copy)]
struct Machine {
    now: Row,
    last: Row,
}

impl Machine {
    /// Appends a row, and answers the one before it where that covers the place.
    fn append(&mut self, place: Spot) -> Option<Row> {
        let last = self.last;
        self.last = self.now;
        if last.covers(self.now, place) {
            Some(last)
        } else {
            None
        }
    }

    /// Runs an instruction, and answers the last row where it is now known to cover the place.
    fn run(&mut self, lines: &Lines<'_, '_>, instruction: Instruction, place: Spot) -> Option<Row> {
        match instruction {
            Instruction::Address(address) => self.now = self.now.advanced(address, 0),
            Instruction::Line(line) => self.now = self.now.advanced(0, line),
            Instruction::File(number) => self.now.file = number,
            Instruction::At(field) => self.now.at = lines.target(field),
            Instruction::Row(address, line) => {
                self.now = self.now.advanced(address, line);
                return self.append(place);
            }
            Instruction::End => {
                let found = self.append(place);
                self.now = START;
                self.last = START;
                return found;
            }
            Instruction::Other => {}
        }
        None
    }
}

/// The row that covers a place, in the table of a unit whose bytes end where it does.
pub fn row_at(lines: &Lines<'_, '_>, bytes: &[u8], unit: &Unit, place: Spot) -> Option<Row> {
    let mut machine = Machine {
        now: START,
        last: START,
    };
    let mut cursor = Cursor {
        bytes,
        at: unit.program,
    };
    'program: while cursor.has_more() {
        let next = next_instruction(&mut cursor, unit)?;
        if let Some(row) = machine.run(lines, next, place) {
            return Some(row);
        }
    }
    None
}
