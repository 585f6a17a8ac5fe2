//! What a switching point passes on.
ghost use Rattle.std.specs.Prelude.{◌≡◌, ◌<◌, ◌↔◌, None, length, option_copied, IfSome};
ghost use Rattle.pw_stitch.specs.Passing.{passed_status, wanted};

use pw_signalling::{Binding, Told};
use pw_tlvs::{Point, PwStatus};

/// What an end of a switching point should tell its peer (RFC 6073 section 7), where this is held of the peer on the other side:
/// all of it, with the own point behind the points that are there. `None` exactly where nothing is held. What is held has passed
/// fewer than three switching points.
pub fn wanted(held: Option<&Binding>, point: Point) -> Option<Told>
    requires room { IfSome (option_copied held) (λ binding. length binding.told.points < 3) }
    ensures told { result ≡ wanted point (option_copied held.entry) }
    ensures none { result ≡ None ↔ option_copied held.entry ≡ None }
{
    match held {
        Some(binding) => {
            let mut points = binding.told.points;
            points.add(point);
            Some(Told {
                points,
                ..binding.told
            })
        }
        None => None,
    }
}

/// The status that an end of a switching point tells its peer, where its mapping has one (RFC 6073 section 10): that of what is
/// held of the peer on the other side, and 0 where nothing is held there, or what is has no status.
pub fn passed_status(held: Option<&Binding>) -> PwStatus
    ensures status { result ≡ passed_status (option_copied held.entry) }
{
    match held {
        Some(binding) => binding.told.status.unwrap_or(PwStatus(0)),
        None => PwStatus(0),
    }
}
