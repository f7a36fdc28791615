//! What memory of an image holds that another linker made: numbers, as fields and slots have them, and the bytes of a
//! section between its fields. What a field is to hold, and where slots may be, others say.
#![tactic(auto)]

mod numbers;
mod rests;
mod slots;
mod spans;

pub use numbers::{has_byte, holds_bytes, holds_number, number_at, shown};
pub use rests::{FieldSpan, are_equal, holds_rest};
pub use slots::{is_slot, slot_address};
pub use spans::{Span, Taken, end_of, has_address, spans_of};
