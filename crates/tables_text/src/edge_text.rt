//! All that is told of one edge.
ghost use Rattle.std.specs.Prelude.{◌≡◌, map};
ghost use Rattle.net_base.specs.plan.Accepted.{IsWithinLimits};
ghost use Rattle.provider_edge.specs.Lists.{seen};
ghost use Rattle.tables_text.specs.Tables.{edge_text, edge_words};
ghost use Rattle.text_lines.specs.{Lines.{word_octets}, Written.{PutsOn}};

use crate::addresses::put_addresses;
use crate::ends::put_ends;
use crate::sessions::put_sessions;
use crate::sorting::Sorting;
use line_shapes::edge_word;
use net_base::{Failed, Sink};
use provider_edge::Edge;
use text_lines::{LineWord, Page};

// The words of an edge behind the first one.
fn words(edge: &Edge) -> [LineWord<'_>; 2]
    ensures { map word_octets result ≡ edge_words edge.now.plan edge.now.me (seen edge.now) }
{
    [
        edge_word(edge.plan(), edge.me()),
        LineWord::Labelled(b"next=", u64::from(edge.next_label())),
    ]
}

/// Puts all that is told of an edge: its own line, and those of its sessions, its ends and its addresses.
pub fn put_edge<K: Sink>(
    page: &mut Page,
    sink: &mut K,
    sorting: &mut Sorting,
    edge: &Edge,
) -> Result<(), Failed>
    requires { IsWithinLimits edge.now.plan }
    ensures { PutsOn K.taken K.faults page.old page.new sink.old sink.new result (edge_text edge.now.plan edge.now.me (seen edge.now)) }
{
    if let Err(fault) = page.put_line(sink, b"edge", &words(edge)) {
        return Err(fault);
    }
    if let Err(fault) = put_sessions(page, sink, edge) {
        return Err(fault);
    }
    match put_ends(page, sink, edge) {
        Ok(()) => put_addresses(page, sink, sorting, edge),
        Err(fault) => Err(fault),
    }
}
