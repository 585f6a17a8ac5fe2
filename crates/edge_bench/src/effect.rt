//! The line of what an edge gives out.

use edge_model::Effect;
use line_shapes::{
    arrival_word, cause_text, circuit_word, edge_word, state_text, wire_end_text, wire_word,
};
use net_base::{Failed, Plan, Sink};
use text_lines::{LineWord, Page};

/// Puts the line; none for a connection that is closed.
pub fn put_effect<K: Sink>(
    page: &mut Page,
    sink: &mut K,
    plan: &Plan,
    effect: &Effect,
) -> Result<(), Failed> {
    match *effect {
        Effect::Said { peer, ref bytes } => {
            let words = [edge_word(plan, peer), LineWord::Hex(bytes.as_slice())];
            page.put_line(sink, b"said", &words)
        }
        Effect::Sent {
            peer,
            wire,
            arrival,
            ref bytes,
        } => {
            let words = [
                edge_word(plan, peer),
                wire_word(plan, wire),
                arrival_word(plan, arrival),
                LineWord::Hex(bytes.as_slice()),
            ];
            page.put_line(sink, b"sent", &words)
        }
        Effect::Left { circuit, ref bytes } => {
            let words = [circuit_word(plan, circuit), LineWord::Hex(bytes.as_slice())];
            page.put_line(sink, b"left", &words)
        }
        Effect::Dropped(cause) => {
            page.put_line(
                sink,
                b"dropped",
                &[LineWord::Text(cause_text(cause).as_bytes())],
            )
        }
        Effect::Session { peer, state } => {
            let state = LineWord::Text(state_text(state).as_bytes());
            page.put_line(sink, b"session", &[edge_word(plan, peer), state])
        }
        Effect::Wire { wire, down } => {
            let down = LineWord::Text(wire_end_text(down).as_bytes());
            page.put_line(sink, b"wire", &[wire_word(plan, wire), down])
        }
        Effect::Pong { wire, sequence } => {
            let sequence = LineWord::Number(u64::from(sequence));
            page.put_line(sink, b"pong", &[wire_word(plan, wire), sequence])
        }
        Effect::Closed { .. } => Ok(()),
    }
}
