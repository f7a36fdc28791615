//! What the checker reads and lists of a link: the plan and the map, the pieces, the definitions and the common blocks
//! of the loaded objects, what names mean, and where the map puts things.
#![tactic(auto)]

mod bounds;
mod by_name;
mod chosen_definitions;
mod common_lines;
mod commons;
mod definition_list;
mod definitions;
mod inputs;
mod link;
mod linker_names;
mod names;
mod numbering;
mod output_names;
mod output_sections;
mod pieces;
mod placed_pieces;
mod places;
mod requests;
mod same_runs;
mod sizes;
mod slot_positions;
mod slots;
mod symbols;
mod things;
mod thread_storage;

pub use bounds::{Bounds, Part, Span, bounds_of, end_of, spans_of, start_of};
pub use common_lines::CommonLines;
pub use definition_list::Definitions;
pub use definitions::{has_value, is_in_thread_section};
pub use inputs::{read_map, read_plan};
pub use link::{Link, base_of, entry_of};
pub use linker_names::{fixed_bound, named_output, output_bound};
pub use names::Names;
pub use numbering::Numbering;
pub use output_names::Outputs;
pub use output_sections::{OutputSection, is_gathered_by, output_section, same_section};
pub use pieces::pieces_of;
pub use placed_pieces::{
    first_address, got_thing, got_things_of, place_all, range_of_placed, thing_of_placed,
    things_of, thread_ranges_of,
};
pub use places::Places;
pub use requests::{Request, Wanted, is_thread, request_of_line};
pub use same_runs::same_inside;
pub use sizes::{is_thread_zero, load_size};
pub use slots::SlotTable;
pub use symbols::{are_sound, section_of};
pub use things::{Block, Meaning, Piece, Placed, SymbolOf};
pub use thread_storage::thread_block;
