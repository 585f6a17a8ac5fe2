//! Pieces against texts that were written by hand.

use crate::words::{holds, is_same};
use std::process::Abort;
use text_pieces::{put_hex_word, put_number_word, put_text, put_word};

const LINE: &str = "left paris 0 18446744073709551615  00090a9fff";

// Adds each piece.
fn add_all(rt: &impl Abort, text: &mut Vec<u8>) {
    put_text(text, b"left").expect(rt, "memory");
    put_word(text, b"paris").expect(rt, "memory");
    put_number_word(text, 0).expect(rt, "memory");
    put_number_word(text, u64::MAX).expect(rt, "memory");
    put_hex_word(text, &[]).expect(rt, "memory");
    put_hex_word(text, &[0, 9, 10, 159, 255]).expect(rt, "memory");
}

#[test]
fn adds_each_piece_at_the_end(rt: HostRuntime) {
    let mut text = Vec::new(rt.alloc());
    add_all(&rt, &mut text);
    holds(&rt, is_same(text.as_slice(), LINE.as_bytes()), LINE);
}
