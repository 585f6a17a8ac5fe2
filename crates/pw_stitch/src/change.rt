//! Contents that are compared.
ghost use Rattle.std.specs.{Prelude.{◌≡◌, ◌↔◌, true}, Cmp.Lexicographic.{pointwise}};
ghost use Rattle.pw_stitch.specs.Change.{are_same_three, has_same_params, is_same_at, is_same_but_status, is_same_point, without_status};

use pw_signalling::Told;
use pw_tlvs::Points;

/// Whether two contents are the same but for the status. Where what a switching point tells and what it should tell are, a
/// Notification is enough (RFC 6073 section 10); else the label is withdrawn and advertised again.
#[tactic(auto, using(crate::proofs::ChangeLemmas::same_without_status))]
pub fn is_same_but_status(told: &Told, other: &Told) -> bool
    ensures same { result ≡ is_same_but_status told.now other.now }
    ensures exact { result ≡ true ↔ without_status told.now ≡ without_status other.now }
{
    if told.c != other.c || told.kind != other.kind || told.group != other.group {
        return false;
    }
    has_same_params(told, other) && are_same_points(&told.points, &other.points)
}

// Whether the interface parameters of both are the same.
fn has_same_params(told: &Told, other: &Told) -> bool
    ensures { result ≡ has_same_params told.now other.now }
{
    told.vccv == other.vccv
        && told.description.as_slice() == other.description.as_slice()
        && told.mtu == other.mtu
        && told.vlan == other.vlan
}

// Whether the switching points of both are the same. There are at most three.
#[tactic(auto, using(crate::proofs::ChangeLemmas::same_three))]
fn are_same_points(points: &Points, others: &Points) -> bool
    ensures { result ≡ pointwise is_same_point points.now others.now }
{
    let at_most_three = points.len() <= 3 && others.len() <= 3;
    at_most_three && are_same_three(points, others)
}

// Whether the first three switching points of both are the same. With the test of the numbers before it this does not prove.
fn are_same_three(points: &Points, others: &Points) -> bool
    ensures { result ≡ are_same_three points.now others.now }
{
    is_same_at(points, others, 0) && is_same_at(points, others, 1) && is_same_at(points, others, 2)
}

// Whether both have the same switching point at a place, or none.
fn is_same_at(points: &Points, others: &Points, at: usize) -> bool
    ensures { result ≡ is_same_at points.now others.now at }
{
    points.get(at) == others.get(at)
}
