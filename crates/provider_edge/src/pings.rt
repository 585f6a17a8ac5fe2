//! The sequence numbers of an edge's next pings (RFC 792).
ghost use Rattle.std.specs.Prelude.{◌≡◌, map, replicate, IfOk};
ghost use Rattle.provider_edge.specs.Pings.{unpinged};

use net_base::NoMemory;
use std::alloc::Global;

// The sequence number of the first ping of a wire.
const FIRST_PING: u16 = 1;

/// So many wires were not pinged.
pub fn first_pings(alloc: Global, count: usize) -> Result<Vec<u16>, NoMemory>
    ensures { IfOk result (λ pings. pings.items ≡ replicate count 1) }
{
    Ok(vec![in alloc; FIRST_PING; count]?)
}

/// The wires count as not pinged.
#[tactic(auto, using(crate::proofs::PingLemmas::unpinged_next))]
pub fn forget_pings(pings: &mut Vec<u16>)
    ensures { pings.new.items ≡ map unpinged pings.old.items }
{
    for next in pings.iter_mut() {
        *next = FIRST_PING;
    }
}
