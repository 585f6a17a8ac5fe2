//! Pieces in rows of octets.
ghost use Rattle.std.specs.Prelude.{◌≡◌, ◌≤◌, ◌+◌, ◌++◌, length, drop};

use net_base::put;

// Writes two pieces to the front, and answers the place behind them.
#[tactic(auto, using(crate::proofs::OctetLemmas::added_behind))]
pub(crate) fn join(front: &[u8], back: &[u8], out: &mut [u8]) -> usize
    requires { length front.now + length back.now ≤ length out.old }
    ensures end { result ≡ length front.now + length back.now }
    ensures octets { out.new ≡ (front.now ++ back.now) ++ drop result out.old }
{
    let middle = put(out, 0, front);
    put(out, middle, back)
}
