//! Virtual switch instances.
ghost use Rattle.std.specs.Prelude.{◌≡◌, ◌==◌, ◌<◌, ◌&&◌, ℕ, [], filter, not, true, length, IfOk};
ghost use Rattle.hvpls_spokes.specs.{Flood.{is_in_flood}, PortSet.{holds_port}};
ghost use Rattle.mac_table.specs.Addresses.{NoneAfter, entry_stays, is_young};
ghost use Rattle.vsi_bridge.specs.{BridgeState.{table_of, most_addresses}, Targets.{heard, is_target, known_port}};

use hvpls_spokes::{PortSet, Ports, flood_set, is_in_flood_set};
use mac_table::MacTable;
use net_base::{List, Mac, NoMemory};
use std::alloc::Global;
use std::marker::Model;

/// The most addresses that a bridge learns.
const MOST_ADDRESSES: u32 = 4096;

/// The bridge of a service at an edge, its virtual switch instance (RFC 4762 section 4). Contracts see its
/// ports, its age limit and the addresses that it has learned.
#[derive(Drop)]
pub struct Bridge {
    ports: Ports,
    age: u32,
    table: MacTable,
}

impl Model for Bridge {
    ghost use Rattle.std.specs.Prelude.{◌≡◌};
    ghost use Rattle.vsi_bridge.specs.BridgeState.{BridgeState, most_addresses};

    ghost Value = { BridgeState };

    ghost view = { λ b. record { ports = b.ports; age = b.age; entries = b.table.entries } };

    ghost invariant = { λ b. b.table.capacity ≡ most_addresses };
}

impl Bridge {
    /// A bridge over these ports that has learned nothing, with the memory for 4,096 addresses. After this no
    /// call takes memory. `age` is the number of ticks after which a learned address that was not heard again
    /// is forgotten (RFC 4762 section 9.1).
    pub fn open(alloc: Global, ports: Ports, age: u32) -> Result<Bridge, NoMemory>
        ensures { IfOk result (λ bridge. bridge ≡ record { ports = ports; age = age; entries = [] }) }
    {
        let table = MacTable::open(alloc, MOST_ADDRESSES)?;
        Ok(Bridge { ports, age, table })
    }

    /// Learns that a frame from `source` came by the port `arrival` at the tick `now`, and then answers the
    /// ports to which it goes. A group is never learned, and a new address is not where 4,096 are held. A
    /// frame to a group, or to a station that was not heard, goes to the flood set; a frame to a known station
    /// goes to its port where that one is in the flood set, and else nowhere (RFC 4762 sections 4.1 and 4.2).
    pub fn decide(
        &mut self,
        arrival: u16,
        source: Mac,
        destination: Mac,
        now: u64,
        forwarding: &PortSet,
    ) -> PortSet
        requires ports { (p : ℕ) → holds_port forwarding.now p ≡ true → p < length self.old.ports }
        requires arrival { holds_port forwarding.now arrival ≡ true }
        requires ticks { NoneAfter now self.old.entries }
        ensures learns { self.new ≡ record self.old { entries = heard self.old.entries source arrival now } }
        ensures targets { (p : ℕ) → holds_port result p ≡ is_target self.old.ports (holds_port forwarding.now) arrival (known_port self.new.entries destination) p }
        ensures ticks { NoneAfter now self.new.entries }
    {
        self.hear(source, arrival, now);
        match self.known(destination) {
            Some(port) => only(&self.ports, forwarding, arrival, port),
            None => flood_set(&self.ports, forwarding, arrival),
        }
    }

    // Learns the source of a frame, where it is a station.
    fn hear(&mut self, source: Mac, arrival: u16, now: u64)
        requires ticks { NoneAfter now self.old.entries }
        ensures learns { self.new ≡ record self.old { entries = heard self.old.entries source arrival now } }
        ensures ticks { NoneAfter now self.new.entries }
    {
        if !source.is_group() {
            self.table.learn(source, arrival, now);
        }
    }

    // The port of a known station.
    fn known(&self, destination: Mac) -> Option<u16>
        ensures { result ≡ known_port self.now.entries destination }
    {
        if destination.is_group() {
            return None;
        }
        self.table.find(destination)
    }

    /// Forgets the addresses that were not heard for as many ticks as the age limit (RFC 4762 section 9.1).
    pub fn tick(&mut self, now: u64)
        requires { NoneAfter now self.old.entries }
        ensures entries { self.new ≡ record self.old { entries = filter (is_young now self.old.age) self.old.entries } }
        ensures ticks { NoneAfter now self.new.entries }
    {
        self.table.age(now, self.age);
    }

    /// Forgets the addresses that are at the port.
    pub fn drop_port(&mut self, port: u16)
        ensures entries { self.new ≡ record self.old { entries = filter (λ e. not (e.port == port)) self.old.entries } }
        ensures ticks { (now : ℕ) → NoneAfter now self.old.entries → NoneAfter now self.new.entries }
    {
        self.table.drop_port(port);
    }

    /// Forgets what a MAC withdraw that came by the port `from` names (RFC 4762 section 6.2): of a list that is not empty its
    /// addresses that are at `from`, and of an empty one all addresses that are not at `from`. The others stay in order.
    pub fn withdraw(&mut self, from: u16, list: &List<Mac>)
        ensures entries { self.new ≡ record self.old { entries = filter (entry_stays from list.now) self.old.entries } }
        ensures ticks { (now : ℕ) → NoneAfter now self.old.entries → NoneAfter now self.new.entries }
    {
        self.table.withdraw(from, list);
    }

    /// The addresses that were learned.
    pub fn table(&self) -> &MacTable
        ensures { result.now ≡ table_of self.now.entries }
    {
        &self.table
    }

    /// The ports.
    pub fn ports(&self) -> &Ports
        ensures { result.now ≡ self.now.ports }
    {
        &self.ports
    }

    /// The age limit in ticks.
    pub fn age(&self) -> u32
        ensures { result ≡ self.now.age }
    {
        self.age
    }
}

// The port alone, where a frame that came by the port `arrival` may go to it.
fn only(ports: &Ports, forwarding: &PortSet, arrival: u16, port: u16) -> PortSet
    requires { (p : ℕ) → holds_port forwarding.now p ≡ true → p < length ports.now }
    ensures { (p : ℕ) → holds_port result p ≡ (is_in_flood ports.now (holds_port forwarding.now) arrival p && p == port) }
{
    let mut one = PortSet::empty();
    if is_in_flood_set(ports, forwarding, arrival, port) {
        one.insert(port);
    }
    one
}
