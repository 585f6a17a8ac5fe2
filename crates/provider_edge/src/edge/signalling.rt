//! What an edge makes of the messages about its pseudowires, and what it tells.

mod across;
mod address_withdraw;
mod ends;
mod messages;
mod pieces;
