//! A packet under way as it is kept.
ghost use Rattle.std.specs.Prelude.{◌≡◌, ◌<◌, ◌≤◌, ◌+◌, IfOk};
ghost use Rattle.psn_net.specs.Packets.{kept_packet};

use crate::departure::Departure;
use net_base::NoMemory;
use network_model::Packet;
use std::alloc::Global;

/// A packet under way, and when it was sent: its age is the ticks that have passed since, so no tick changes it.
#[derive(Drop)]
pub struct Carried {
    /// What was sent.
    pub departure: Departure,
    /// How many ticks had passed when it was sent, or when the packet was that it is a copy of.
    pub since: u64,
}

impl Carried {
    /// The same octets on the same way, sent at the same time.
    pub fn copy(&self, alloc: Global) -> Result<Carried, NoMemory>
        ensures { IfOk result (λ copy. copy ≡ self.now) }
    {
        let Departure {
            wire,
            from,
            to,
            trail,
            ref bytes,
        } = self.departure;
        Ok(Carried {
            departure: Departure {
                wire,
                from,
                to,
                trail,
                bytes: bytes.copy(alloc)?,
            },
            since: self.since,
        })
    }

    /// The packet with its number, after so many ticks.
    pub fn into_packet(self, number: u64, ticks: u64) -> Packet
        requires sent { self.since ≤ ticks }
        requires young { ticks < self.since + 64 }
        ensures { result ≡ kept_packet ticks (number, self) }
    {
        let Carried { departure, since } = self;
        Packet {
            number,
            wire: departure.wire,
            from: departure.from,
            to: departure.to,
            origin: departure.trail.origin,
            hops: departure.trail.hops,
            age: (ticks - since) as u8,
            bytes: departure.bytes,
        }
    }
}
