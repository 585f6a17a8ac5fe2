//! The lines of the sessions of an edge.
ghost use Rattle.std.specs.Prelude.{◌≡◌, [], map, if◌then◌else◌};
ghost use Rattle.net_base.specs.{plan.Accepted.{IsWithinLimits}, plan.Paths.{are_joined}};
ghost use Rattle.provider_edge.specs.Lists.{seen};
ghost use Rattle.tables_text.specs.Tables.{session_line, session_lines, session_words};
ghost use Rattle.text_lines.specs.{Lines.{word_octets}, Written.{PutsOn}};

use line_shapes::{edge_word, state_text};
use net_base::{EdgeId, Failed, Sink};
use provider_edge::Edge;
use text_lines::{LineWord, Page};

// The words of the session of an edge with a peer behind the first one.
fn words(edge: &Edge, peer: EdgeId) -> [LineWord<'_>; 2]
    ensures { map word_octets result ≡ session_words edge.now.plan (seen edge.now) peer }
{
    [
        edge_word(edge.plan(), peer),
        LineWord::Text(state_text(edge.session(peer)).as_bytes()),
    ]
}

// Puts the line of the session with a peer, where a segment joins the two edges.
#[tactic(auto, using(text_lines::proofs::WrittenLemmas::goes_none))]
fn put_session<K: Sink>(
    page: &mut Page,
    sink: &mut K,
    edge: &Edge,
    peer: EdgeId,
) -> Result<(), Failed>
    ensures { PutsOn K.taken K.faults page.old page.new sink.old sink.new result
        (if are_joined edge.now.plan edge.now.me.0 peer.0 then session_line edge.now.plan (seen edge.now) peer else []) }
{
    if edge.plan().joined(edge.me(), peer) {
        page.put_line(sink, b"session", &words(edge, peer))
    } else {
        Ok(())
    }
}

/// Puts the lines of the sessions of an edge with its neighbours, in the plan's order.
pub fn put_sessions<K: Sink>(page: &mut Page, sink: &mut K, edge: &Edge) -> Result<(), Failed>
    requires { IsWithinLimits edge.now.plan }
    ensures { PutsOn K.taken K.faults page.old page.new sink.old sink.new result (session_lines edge.now.plan edge.now.me (seen edge.now) 0 edge.now.plan.edges) }
{
    for place in 0..edge.plan().edges.len() {
        put_session(page, sink, edge, EdgeId(place as u16))?;
    }
    Ok(())
}
