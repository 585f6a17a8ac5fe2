//! The rows of entries.
ghost use Rattle.std.specs.Prelude.{◌≡◌, ◌<◌, ◌≤◌, length, map};
ghost use Rattle.line_shapes.specs.Shapes.{AreValuesOf, AreSmall, form_at, form_of};
ghost use Rattle.report_text.specs.Rows.{entry_apart, entry_forms, entry_made};

use line_shapes::Choice::{Cause, End, State};
use line_shapes::Kind::{Edge, Number, OneOf, Wire};
use line_shapes::{
    Shape, Values, cause_at, cause_place, shape_at, state_at, state_place, wire_end_at,
    wire_end_place,
};
use net_base::{Entry, Plan};

/// The shape of each entry without octets.
pub fn entry_shapes() -> &'static [Shape<'static>]
    ensures { map form_of result.now ≡ entry_forms }
{
    &[
        Shape(b"session", &[Edge, Edge, OneOf(State)]),
        Shape(b"wire", &[Edge, Wire, OneOf(End)]),
        Shape(b"dropped", &[Edge, Number(0, u64::MAX), OneOf(Cause)]),
        Shape(b"idle", &[]),
        Shape(b"copied", &[Number(0, u64::MAX), Number(0, u64::MAX)]),
        Shape(b"aged", &[Number(0, u64::MAX)]),
        Shape(b"pong", &[Edge, Wire, Number(0, 65535)]),
    ]
}

/// The entry of a row and its values.
pub fn entry_made(plan: &Plan, row: usize, values: &Values) -> Entry
    requires row { row < 7 }
    requires fit { AreValuesOf plan.now (form_at entry_forms row).kinds values.now }
    requires small { AreSmall (form_at entry_forms row).kinds values.now }
    ensures { result ≡ entry_made row values.now }
{
    match row {
        0 => Entry::Session {
            edge: values.edge(0),
            peer: values.edge(1),
            state: state_at(values.at(2)),
        },
        1 => Entry::Wire {
            edge: values.edge(0),
            wire: values.wire(1),
            down: wire_end_at(values.at(2)),
        },
        2 => Entry::Dropped {
            edge: values.edge(0),
            origin: values.at(1),
            cause: cause_at(values.at(2)),
        },
        3 => Entry::Idle,
        4 => Entry::Copied {
            packet: values.at(0),
            of: values.at(1),
        },
        5 => Entry::Aged {
            packet: values.at(0),
        },
        _ => Entry::Pong {
            edge: values.edge(0),
            wire: values.wire(1),
            sequence: values.at(2) as u16,
        },
    }
}

/// The shape of a row; behind the last one, that of the empty word.
pub fn entry_shape(row: usize) -> Shape<'static>
    ensures form { form_of result ≡ form_at entry_forms row }
    ensures short { length result.1.now ≤ 3 }
{
    shape_at(entry_shapes(), row)
}

/// The row of an entry, and its values. One with octets has the row behind the last one.
pub fn entry_apart(entry: &Entry) -> (usize, Values)
    ensures { result ≡ entry_apart entry.now }
{
    match *entry {
        Entry::Session { edge, peer, state } => {
            let values = Values::of(&[edge.0 as u64, peer.0 as u64, state_place(state)]);
            (0, values)
        }
        Entry::Wire { edge, wire, down } => {
            let values = Values::of(&[edge.0 as u64, wire.0 as u64, wire_end_place(down)]);
            (1, values)
        }
        Entry::Dropped {
            edge,
            origin,
            cause,
        } => (2, Values::of(&[edge.0 as u64, origin, cause_place(cause)])),
        Entry::Idle => (3, Values::new()),
        Entry::Copied { packet, of } => (4, Values::of(&[packet, of])),
        Entry::Aged { packet } => (5, Values::of(&[packet])),
        Entry::Pong {
            edge,
            wire,
            sequence,
        } => (
            6,
            Values::of(&[edge.0 as u64, wire.0 as u64, sequence as u64]),
        ),
        _ => (7, Values::new()),
    }
}
