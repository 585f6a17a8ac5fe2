//! The lines of the ends of an edge.
ghost use Rattle.std.specs.Prelude.{◌≡◌, ◌<◌, length, map, option_copied};
ghost use Rattle.edge_model.specs.{EndPlaces.{end_places}, Role.{down_at}, State.{end_at}};
ghost use Rattle.provider_edge.specs.Lists.{seen};
ghost use Rattle.pw_ends.specs.Ends.{place_of};
ghost use Rattle.pw_signalling.specs.AnyEnd.{end_of};
ghost use Rattle.tables_text.specs.Tables.{end_line, end_lines, end_text, end_words, local_text, remote_text};
ghost use Rattle.text_lines.specs.{Lines.{word_octets}, Written.{PutsOn}};

use edge_model::EndPlace;
use line_shapes::{edge_word, wire_end_text, wire_word};
use net_base::{Down, Failed, Sink};
use provider_edge::Edge;
use pw_signalling::{Binding, PwEnd};
use text_lines::{LineWord, Page};

// What an end tells its peer.
fn local<'a>(end: &PwEnd) -> LineWord<'a>
    ensures { word_octets result ≡ local_text (end_of end.now).local }
{
    match end {
        PwEnd::Idle(_) => LineWord::Text(b"-"),
        PwEnd::Advertised(end) => LineWord::Number(u64::from(end.label().number())),
        PwEnd::Withdrawing(end) => LineWord::Marked(u64::from(end.label().number()), b"!"),
    }
}

// What an end holds of its peer.
fn remote<'a>(binding: Option<&Binding>) -> LineWord<'a>
    ensures { word_octets result ≡ remote_text (option_copied binding.entry) }
{
    match binding {
        Some(binding) => LineWord::Number(u64::from(binding.label.number())),
        None => LineWord::Text(b"-"),
    }
}

// Why the end of a slot does not forward.
fn down(edge: &Edge, slot: usize, place: EndPlace) -> Option<Down>
    requires slot { slot < length edge.now.ends.places }
    requires place { place ≡ place_of edge.now.ends slot }
    ensures { result ≡ down_at edge.now.plan (seen edge.now) place }
{
    edge.down_of(slot)
}

// Whether the end of a slot forwards, or is stitched.
fn state<'a>(edge: &Edge, slot: usize, place: EndPlace) -> LineWord<'a>
    requires slot { slot < length edge.now.ends.places }
    requires place { place ≡ place_of edge.now.ends slot }
    ensures { word_octets result ≡ end_text edge.now.plan (seen edge.now) place }
{
    if place.terminal {
        LineWord::Text(wire_end_text(down(edge, slot, place)).as_bytes())
    } else if edge.is_stitched(place.wire) {
        LineWord::Text(b"stitched")
    } else {
        LineWord::Text(b"open")
    }
}

// The end of a slot.
fn end_at(edge: &Edge, slot: usize, place: EndPlace) -> &PwEnd
    requires slot { slot < length edge.now.ends.places }
    requires place { place ≡ place_of edge.now.ends slot }
    ensures { end_of result.now ≡ end_at (seen edge.now) place }
{
    edge.end_in(slot)
}

// The words of the end of a slot behind the first one: its wire and segment, the edge beside it, the labels of both, and whether it
// forwards.
fn words(edge: &Edge, slot: usize, place: EndPlace) -> [LineWord<'_>; 6]
    requires slot { slot < length edge.now.ends.places }
    requires place { place ≡ place_of edge.now.ends slot }
    ensures { map word_octets result ≡ end_words edge.now.plan (seen edge.now) place }
{
    let plan = edge.plan();
    let end = end_at(edge, slot, place);
    [
        wire_word(plan, place.wire),
        LineWord::Number(u64::from(place.segment)),
        edge_word(plan, place.peer),
        local(end),
        remote(end.remote()),
        state(edge, slot, place),
    ]
}

// Puts the line of the end of a slot.
fn put_end<K: Sink>(page: &mut Page, sink: &mut K, edge: &Edge, slot: usize) -> Result<(), Failed>
    requires { slot < length edge.now.ends.places }
    ensures { PutsOn K.taken K.faults page.old page.new sink.old sink.new result (end_line edge.now.plan (seen edge.now) (place_of edge.now.ends slot)) }
{
    let place = edge.places()[slot];
    page.put_line(sink, b"end", &words(edge, slot, place))
}

// How many ends the edge has.
fn end_count(edge: &Edge) -> usize
    ensures count { result ≡ length edge.now.ends.places }
    ensures places { edge.now.ends.places ≡ end_places edge.now.plan edge.now.me }
{
    edge.places().len()
}

/// Puts the lines of the ends of an edge, in the plan's order of the wires, and in that of the segments of each.
pub fn put_ends<K: Sink>(page: &mut Page, sink: &mut K, edge: &Edge) -> Result<(), Failed>
    ensures { PutsOn K.taken K.faults page.old page.new sink.old sink.new result (end_lines edge.now.plan (seen edge.now) (end_places edge.now.plan edge.now.me)) }
{
    for slot in 0..end_count(edge) {
        put_end(page, sink, edge, slot)?;
    }
    Ok(())
}
