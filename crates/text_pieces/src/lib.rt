//! Pieces of text: words, numbers and octets in hexadecimal, each added at the end of a text. The text is a vector of
//! octets.
//!
//! The one error is want of memory; a front of the piece may then stand at the end of the text.
#![tactic(auto)]

mod hexadecimal;
mod pieces;

pub use hexadecimal::{put_digits, put_hex_word, write_digits};
pub use pieces::{put_number, put_number_word, put_text, put_word};
