//! Decoded LDP messages as text: the line of a message tells the place of its PDU in the stream, its name, its Message ID
//! and the parts that it has (RFC 5036 section 3.5, RFC 8077 section 6).
//!
//! `specs/Words.antt` has the words of each part, and `specs/Line.antt` the lines.
#![tactic(auto)]

mod laid;
mod lent;
mod line;
mod names;
mod parts;
mod pieces;
mod pseudowire;

pub use lent::put_views;
pub use line::put_messages;
pub use names::field_text;
