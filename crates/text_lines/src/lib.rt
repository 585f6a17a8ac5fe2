//! Texts on their way to a sink: a page in which octets wait until it is full. Room for the page is made before a
//! text begins, and nothing else takes memory, so a text of any length ends in want of room at the sink alone.
//!
//! `specs/Written.antt` says what becomes of octets that are put, and `specs/Lines.antt` how words make a line.
#![tactic(auto)]

mod line_word;
mod page;
mod whole;

pub use line_word::LineWord;
pub use page::Page;
pub use whole::write_text;
