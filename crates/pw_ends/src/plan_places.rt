//! Where a plan has ends of an edge.
ghost use Rattle.std.specs.Prelude.{◌≡◌, ◌≤◌, ◌++◌, length, IfOk, OnOk};
ghost use Rattle.net_base.specs.plan.Accepted.{IsChecked};
ghost use Rattle.edge_model.specs.EndPlaces.{end_place_at, end_places, places_along, places_at};

use crate::segment::Segment;
use edge_model::EndPlace;
use hvpls_spokes::is_terminal;
use net_base::{EdgeId, List, NoMemory, Plan, SegKey, WireId, WirePlan};
use std::alloc::Global;

/// The places of the ends of an edge, in the order of the wires, and of the segments of each.
pub(crate) fn end_places(alloc: Global, plan: &Plan, me: EdgeId) -> Result<List<EndPlace>, NoMemory>
    requires { IsChecked plan.now }
    ensures { IfOk result (λ places. places ≡ end_places plan.now me) }
{
    let mut places = List::new(alloc);
    for (wire, row) in plan.wires.as_slice().iter().enumerate() {
        push_places(&mut places, WireId(wire as u16), row, me)?;
    }
    Ok(places)
}

// Adds the ends of one wire.
fn push_places(
    places: &mut List<EndPlace>,
    wire: WireId,
    row: &WirePlan,
    me: EdgeId,
) -> Result<(), NoMemory>
    requires { length row.now.path ≤ 5 }
    ensures { OnOk result (places.new ≡ places.old ++ places_along wire row.now me 0 row.now.path) }
{
    let [first, rest @ ..] = row.path.as_slice() else {
        return Ok(());
    };
    let mut before = *first;
    for (number, next) in rest.iter().enumerate() {
        let segment = Segment {
            key: SegKey {
                wire,
                segment: number as u8,
            },
            first: before,
            next: *next,
        };
        push_place(places, row, me, segment)?;
        before = *next;
    }
    Ok(())
}

// Adds the end of the edge at a segment, where it is one of the edges that the segment joins.
fn push_place(
    places: &mut List<EndPlace>,
    row: &WirePlan,
    me: EdgeId,
    segment: Segment,
) -> Result<(), NoMemory>
    ensures { OnOk result (places.new ≡ places.old ++ places_at segment.key.wire row.now me segment.key.segment segment.first segment.next) }
{
    if me == segment.first {
        places.push(place_at(segment.key, row, me, 0, segment.next))?;
    } else if me == segment.next {
        places.push(place_at(segment.key, row, me, 1, segment.first))?;
    }
    Ok(())
}

// The end at one side of a segment, beside the edge at its other side.
fn place_at(key: SegKey, row: &WirePlan, me: EdgeId, side: u8, peer: EdgeId) -> EndPlace
    ensures { result ≡ end_place_at key.wire row.now me key.segment side peer }
{
    EndPlace {
        wire: key.wire,
        peer,
        pw_id: row.pw_id,
        segment: key.segment,
        side,
        terminal: is_terminal(row.path.as_slice(), me),
    }
}
