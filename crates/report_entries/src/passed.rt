//! What a line tells of a frame on its way.
ghost use Rattle.std.specs.Prelude.{map};
ghost use Rattle.report_entries.specs.{Entries.{carried_in, passed_in}, Reading.{Reads}};

use crate::Unread;
use crate::values::{arrival, number, octets, wire};
use net_base::{Arrival, Octets, WireId};
use plan_names::PlanNames;
use std::alloc::Global;

/// A frame on its way: its number, the segments that it has passed, and its octets.
#[derive(Debug, Drop)]
pub struct Passed {
    pub origin: u64,
    pub hops: u64,
    pub bytes: Octets,
}

/// The wire that a packet was sent on, by what it came, and the frame in it.
#[derive(Debug, Drop)]
pub struct Carried {
    pub wire: WireId,
    pub arrival: Arrival,
    pub passed: Passed,
}

/// The frame that these words tell of.
#[tactic(auto, unfolding(crate::specs::Entries::passed_in))]
pub fn read_passed(alloc: Global, words: &[&[u8]]) -> Result<Passed, Unread>
    ensures { Reads result (passed_in (map (λ w. w.now) words.now)) }
{
    match words {
        [origin, hops, digits] => {
            let origin = number(origin)?;
            let hops = number(hops)?;
            let bytes = octets(alloc, digits)?;
            Ok(Passed {
                origin,
                hops,
                bytes,
            })
        }
        _ => Err(Unread::NoEntry),
    }
}

/// The wire, the arrival and the frame that these words tell of.
#[tactic(auto, unfolding(crate::specs::Entries::carried_in))]
pub fn read_carried(
    alloc: Global,
    names: &PlanNames<'_>,
    words: &[&[u8]],
) -> Result<Carried, Unread>
    ensures { Reads result (carried_in names.now (map (λ w. w.now) words.now)) }
{
    match words {
        [over, came, words @ ..] => {
            let over = wire(names, over)?;
            let came = arrival(names, came)?;
            let passed = read_passed(alloc, words)?;
            Ok(Carried {
                wire: over,
                arrival: came,
                passed,
            })
        }
        _ => Err(Unread::NoEntry),
    }
}
