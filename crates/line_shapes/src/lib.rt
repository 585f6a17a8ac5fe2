//! Lines of words, each of one shape: a first word, and behind it names of a plan, numbers and words of a choice. One reader gives the
//! values of a line or the place of the first word that does not fit, and one writer gives the words of values.
//!
//! `specs/Shapes.antt` says what the words of a line say, and `specs/Laws.antt` that both agree.
#![tactic(auto)]

mod choice;
mod choice_values;
mod kind;
mod laws;
mod names;
mod numbered_line;
mod page_lines;
mod reader;
mod shape;
mod shaped_words;
mod values;
mod words;
mod writer;

pub use choice::{Choice, is_word, place_of};
pub use choice_values::{
    cause_at, cause_place, state_at, state_place, switch_place, wire_end_at, wire_end_place,
};
pub use kind::Kind;
pub use laws::{read_what_is_written, written_as_read};
pub use names::{
    arrival_text, arrival_word, cause_text, circuit_text, circuit_word, edge_text, edge_word,
    state_text, wire_end_text, wire_text, wire_word,
};
pub use numbered_line::NumberedLine;
pub use page_lines::{put_done_row, put_row};
pub use reader::{read_shaped, shape_at};
pub use shape::Shape;
pub use shaped_words::ShapedWords;
pub use values::Values;
pub use words::Words;
