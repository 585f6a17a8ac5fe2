//! The rows of events.
ghost use Rattle.std.specs.Prelude.{◌≡◌, ◌<◌, ◌≤◌, ◌∷◌, [], length, map};
ghost use Rattle.line_shapes.specs.Shapes.{AreValuesOf, AreSmall, form_at, form_of};
ghost use Rattle.event_rows.specs.Rows.{event_apart, event_forms, event_made};

use line_shapes::Choice::Switch;
use line_shapes::Kind::{Circuit, Edge, Number, OneOf, Wire};
use line_shapes::{Shape, Values, shape_at, switch_place};
use net_base::{Event, Plan};

/// The shape of each event without octets.
pub fn event_shapes() -> &'static [Shape<'static>]
    ensures { map form_of result.now ≡ event_forms }
{
    &[
        Shape(b"deliver", &[Edge, Edge, Number(1, 65535)]),
        Shape(b"arrive", &[Number(1, u64::MAX)]),
        Shape(b"drop", &[Number(1, u64::MAX)]),
        Shape(b"again", &[Number(1, u64::MAX)]),
        Shape(b"connect", &[Edge, Edge]),
        Shape(b"lose", &[Edge, Edge]),
        Shape(b"restart", &[Edge]),
        Shape(b"tick", &[]),
        Shape(b"wire", &[Edge, Wire, OneOf(Switch)]),
        Shape(b"circuit", &[Circuit, OneOf(Switch)]),
        Shape(b"status", &[Edge, Wire, Number(0, 31)]),
        Shape(b"priority", &[Edge, Wire, Number(0, 255)]),
        Shape(b"ping", &[Edge, Wire]),
    ]
}

/// The event of a row and its values.
pub fn event_made(plan: &Plan, row: usize, values: &Values) -> Event
    requires row { row < 13 }
    requires fit { AreValuesOf plan.now (form_at event_forms row).kinds values.now }
    requires small { AreSmall (form_at event_forms row).kinds values.now }
    ensures { result ≡ event_made row values.now }
{
    match row {
        0 => Event::Deliver {
            from: values.edge(0),
            to: values.edge(1),
            count: values.at(2) as u16,
        },
        1 => Event::Arrive {
            packet: values.at(0),
        },
        2 => Event::Discard {
            packet: values.at(0),
        },
        3 => Event::Again {
            packet: values.at(0),
        },
        4 => Event::Connect {
            from: values.edge(0),
            to: values.edge(1),
        },
        5 => Event::Lose {
            edge: values.edge(0),
            peer: values.edge(1),
        },
        6 => Event::Restart {
            edge: values.edge(0),
        },
        7 => Event::Tick,
        8 => Event::Wire {
            edge: values.edge(0),
            wire: values.wire(1),
            on: values.at(2) == 1,
        },
        9 => Event::Circuit {
            circuit: values.circuit(0),
            on: values.at(1) == 1,
        },
        10 => Event::Status {
            edge: values.edge(0),
            wire: values.wire(1),
            bits: values.at(2) as u8,
        },
        11 => Event::Priority {
            edge: values.edge(0),
            wire: values.wire(1),
            priority: values.at(2) as u8,
        },
        _ => Event::Ping {
            edge: values.edge(0),
            wire: values.wire(1),
        },
    }
}

/// The shape of a row; behind the last one, that of the empty word.
pub fn event_shape(row: usize) -> Shape<'static>
    ensures form { form_of result ≡ form_at event_forms row }
    ensures short { length result.1.now ≤ 3 }
{
    shape_at(event_shapes(), row)
}

// The values of two edges, an edge and a wire, or a number and another one.
fn two(first: u16, second: u16) -> Values
    ensures { result ≡ first ∷ second ∷ [] }
{
    Values::of(&[first as u64, second as u64])
}

// Those of two places and a number behind them.
fn three(first: u16, second: u16, third: u64) -> Values
    ensures { result ≡ first ∷ second ∷ third ∷ [] }
{
    Values::of(&[first as u64, second as u64, third])
}

/// The row of an event, and its values. A frame has the row behind the last one.
pub fn event_apart(event: &Event) -> (usize, Values)
    ensures { result ≡ event_apart event.now }
{
    match *event {
        Event::Deliver { from, to, count } => (0, three(from.0, to.0, count as u64)),
        Event::Arrive { packet } => (1, Values::of(&[packet])),
        Event::Discard { packet } => (2, Values::of(&[packet])),
        Event::Again { packet } => (3, Values::of(&[packet])),
        Event::Connect { from, to } => (4, two(from.0, to.0)),
        Event::Lose { edge, peer } => (5, two(edge.0, peer.0)),
        Event::Restart { edge } => (6, Values::of(&[edge.0 as u64])),
        Event::Tick => (7, Values::new()),
        Event::Wire { edge, wire, on } => (8, three(edge.0, wire.0, switch_place(on))),
        Event::Circuit { circuit, on } => (9, Values::of(&[circuit.0 as u64, switch_place(on)])),
        Event::Status { edge, wire, bits } => (10, three(edge.0, wire.0, bits as u64)),
        Event::Priority {
            edge,
            wire,
            priority,
        } => (11, three(edge.0, wire.0, priority as u64)),
        Event::Ping { edge, wire } => (12, two(edge.0, wire.0)),
        Event::Frame { .. } => (13, Values::new()),
    }
}
