//! Marks that wires leave, by which most wires are seen to break no rule with an earlier one without a walk over those.
ghost use Rattle.std.specs.Prelude.{◌≡◌, ◌<◌, length, if◌then◌else◌};
ghost use Rattle.net_base.specs.{plan.Paths.{first_edge}, plan.Places.{is_mesh_class}};
ghost use Rattle.net_base.specs.plan.WireMarks.{edge_number, pw_id_mark, pair_mark, end_mark, start_mark, ends_mark, left_first, left_last, asked_first, asked_last, is_wire_marked, marks_with};

use crate::plan::paths::{first_of, last_of};
use crate::plan::wire_rule::WireRule;
use crate::{Class, EdgeId, ServiceId, WirePlan};

/// How many marks there are: eight for each wire of the largest plan, so that few wires meet a mark of another one by chance.
pub(crate) const MARKS: usize = 8192;

// The number of an edge.
fn edge_number(edge: Option<EdgeId>) -> usize
    ensures number { result ≡ edge_number edge }
    ensures within { result < 65536 }
{
    match edge {
        Some(edge) => edge.0 as usize,
        None => 0,
    }
}

#[tactic(auto, unfolding(crate::specs::plan::WireMarks::pw_id_mark))]
fn pw_id_mark(pw_id: u32) -> usize
    ensures mark { result ≡ pw_id_mark pw_id }
    ensures within { result < 8192 }
{
    pw_id as usize % MARKS
}

// The mark of a service and two edges, in either order.
#[tactic(auto, unfolding(crate::specs::plan::WireMarks::pair_mark))]
fn pair_mark(service: ServiceId, a: usize, b: usize) -> usize
    requires first { a < 65536 }
    requires last { b < 65536 }
    ensures mark { result ≡ pair_mark service.0 a b }
    ensures within { result < 8192 }
{
    (service.0 as usize * 4096 + (a.min(b) * 64 + a.max(b))) % MARKS
}

// The mark of a wire's service and its terminal edges, in either order.
fn ends_mark(wire: &WirePlan) -> usize
    ensures mark { result ≡ ends_mark wire.now }
    ensures within { result < 8192 }
{
    let path = wire.path.as_slice();
    pair_mark(
        wire.service,
        edge_number(first_of(path)),
        edge_number(last_of(path)),
    )
}

// The mark of an edge at which a wire of a service ends.
#[tactic(auto, unfolding(crate::specs::plan::WireMarks::end_mark))]
fn end_mark(service: ServiceId, edge: Option<EdgeId>) -> usize
    ensures mark { result ≡ end_mark service.0 (edge_number edge) }
    ensures within { result < 4096 }
{
    (service.0 as usize * 64 + edge_number(edge)) % 4096
}

// The mark of an edge at which a spoke of a service starts.
#[tactic(auto, unfolding(crate::specs::plan::WireMarks::start_mark))]
fn start_mark(service: ServiceId, edge: Option<EdgeId>) -> usize
    ensures mark { result ≡ start_mark service.0 (edge_number edge) }
    ensures within { result < 8192 }
{
    4096 + end_mark(service, edge)
}

// The mark of the first edge: that of an end where this is so, and else that of a start.
fn first_mark(is_end: bool, wire: &WirePlan) -> usize
    ensures mark { result ≡ (if is_end then end_mark wire.now.service.0 (edge_number (first_edge wire.now.path)) else start_mark wire.now.service.0 (edge_number (first_edge wire.now.path))) }
    ensures within { result < 8192 }
{
    let first = first_of(wire.path.as_slice());
    if is_end {
        end_mark(wire.service, first)
    } else {
        start_mark(wire.service, first)
    }
}

fn is_mesh(class: Class) -> bool
    ensures { result ≡ is_mesh_class class }
{
    match class {
        Class::Mesh => true,
        Class::Spoke => false,
    }
}

// The marks that a wire leaves.
fn left(rule: WireRule, wire: &WirePlan) -> (usize, usize)
    ensures first { result.0 ≡ left_first rule wire.now }
    ensures last { result.1 ≡ left_last rule wire.now }
    ensures first_within { result.0 < 8192 }
    ensures last_within { result.1 < 8192 }
{
    match rule {
        WireRule::PwIds => (pw_id_mark(wire.pw_id), pw_id_mark(wire.pw_id)),
        WireRule::MeshWires => (ends_mark(wire), ends_mark(wire)),
        WireRule::SpokeStarts => (
            first_mark(is_mesh(wire.class), wire),
            end_mark(wire.service, last_of(wire.path.as_slice())),
        ),
    }
}

// The marks for which a wire asks.
fn asked(rule: WireRule, wire: &WirePlan) -> (usize, usize)
    ensures first { result.0 ≡ asked_first rule wire.now }
    ensures last { result.1 ≡ asked_last rule wire.now }
    ensures first_within { result.0 < 8192 }
    ensures last_within { result.1 < 8192 }
{
    match rule {
        WireRule::PwIds => (pw_id_mark(wire.pw_id), pw_id_mark(wire.pw_id)),
        WireRule::MeshWires => (ends_mark(wire), ends_mark(wire)),
        WireRule::SpokeStarts => (
            first_mark(!is_mesh(wire.class), wire),
            start_mark(wire.service, last_of(wire.path.as_slice())),
        ),
    }
}

/// Whether a mark for which the wire asks was left.
pub(crate) fn is_marked(rule: WireRule, marks: &[bool], wire: &WirePlan) -> bool
    requires { length marks.now ≡ 8192 }
    ensures { result ≡ is_wire_marked rule marks.now wire.now }
{
    let (first, last) = asked(rule, wire);
    marks[first] || marks[last]
}

/// Leaves the marks of the wire.
pub(crate) fn leave_marks(rule: WireRule, marks: &mut [bool], wire: &WirePlan)
    requires { length marks.old ≡ 8192 }
    ensures marks { marks.new ≡ marks_with rule marks.old wire.now }
    ensures size { length marks.new ≡ length marks.old }
{
    let (first, last) = left(rule, wire);
    marks[first] = true;
    marks[last] = true;
}
