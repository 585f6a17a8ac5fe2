//! What a switching point accepts of a peer.
ghost use Rattle.std.specs.{Prelude.{◌≡◌, ◌<◌, true, length}, List.{list_any}};
ghost use Rattle.pw_stitch.specs.Accepting.{accepts, is_held_at, is_point_at};

use net_base::Addr;
use pw_signalling::Told;
use pw_tlvs::{Point, Points};

/// Whether a switching point with this address accepts what a peer tells (RFC 6073 section 7.6): not exactly where one of the
/// switching points that it has passed has the own address, or it has passed three already.
pub fn accepts(own: Addr, told: &Told) -> bool
    ensures accepts { result ≡ accepts own told.now }
    ensures room { result ≡ true → length told.now.points < 3 }
{
    told.points.len() < 3 && !has_passed(own, &told.points)
}

// Whether one of the points has this address.
#[tactic(auto, using(crate::proofs::AcceptLemmas::any_from))]
fn has_passed(own: Addr, points: &Points) -> bool
    ensures { result ≡ list_any (is_point_at own) points.now }
{
    for index in 0..points.len() {
        if is_held_at(own, points.get(index)) {
            return true;
        }
    }
    false
}

// Whether the point, where there is one, has this address.
fn is_held_at(own: Addr, point: Option<Point>) -> bool
    ensures { result ≡ is_held_at own point }
{
    match point {
        Some(point) => point.local == Some(own),
        None => false,
    }
}
