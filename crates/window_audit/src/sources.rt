//! Where frames came from.
ghost use Rattle.std.specs.{Prelude.{◌≡◌, ◌==◌, ◌&&◌, ◌++◌, ◌∷◌, [], ℕ, List, true, OnOk, if◌then◌else◌}, Str.{bytes_eq}};
ghost use Rattle.net_base.specs.{declared.plan.Plan.{Plan as Planned}, declared.trace.entry.Entry.{Entry as Told}};
ghost use Rattle.net_values.specs.declared.mac.Mac.{Mac as Address};
ghost use Rattle.window_audit.specs.Sources.{HasEnteredOnce, HasSources, has_source};

use crate::address::address_at;
use crate::source::Source;
use net_base::{CircuitId, Entry, NoMemory, Plan, ServiceId};
use net_values::Mac;
use std::alloc::Global;
use std::collections::BTreeSet;
use std::marker::Model;

/// The sources of the frames that entered, by the services that they entered. They are kept in an order, so that no choice of addresses
/// makes one dear to find.
#[derive(Drop)]
pub struct Sources {
    set: BTreeSet<Source>,
}

impl Model for Sources {
    ghost use Rattle.std.specs.Prelude.{List};
    ghost use Rattle.window_audit.specs.declared.source.Source.{Source as From};

    ghost Value = { List From };

    ghost view = { λ s. s.set.keys };
}

impl Sources {
    /// No frame entered.
    pub fn new(alloc: Global) -> Sources
        ensures { (plan : Planned) → HasSources plan result [] }
    {
        Sources {
            set: BTreeSet::new(alloc),
        }
    }

    /// Whether a frame that entered the service had the address as its source.
    pub fn has(&self, service: ServiceId, address: Mac) -> bool
        ensures { result ≡ has_source self.now service.0 address.0 }
    {
        self.set.contains(&Source {
            service: service.0,
            address,
        })
    }

    /// An entry is told.
    pub fn tell(&mut self, plan: &Plan, entry: &Entry) -> Result<(), NoMemory>
        ensures { OnOk result ((trace : List Told) → HasSources plan.now self.old trace → HasSources plan.now self.new (trace ++ entry.now ∷ [])) }
    {
        match *entry {
            Entry::In {
                circuit,
                ref bytes,
                ..
            } => self.enter(plan, circuit, bytes.as_slice()),
            Entry::Did { .. } => Ok(()),
            Entry::Idle => Ok(()),
            Entry::Said { .. } => Ok(()),
            Entry::Sent { .. } => Ok(()),
            Entry::Copied { .. } => Ok(()),
            Entry::Aged { .. } => Ok(()),
            Entry::Left { .. } => Ok(()),
            Entry::Dropped { .. } => Ok(()),
            Entry::Session { .. } => Ok(()),
            Entry::Wire { .. } => Ok(()),
            Entry::Pong { .. } => Ok(()),
        }
    }

    // A frame entered.
    fn enter(&mut self, plan: &Plan, circuit: CircuitId, octets: &[u8]) -> Result<(), NoMemory>
        ensures { OnOk result (HasEnteredOnce plan.now circuit octets.now self.old self.new) }
    {
        if octets.len() < 12 {
            return Ok(());
        }
        let Some(row) = plan.circuits.get(circuit.0 as usize) else {
            return Ok(());
        };
        let service = row.service;
        self.add(service, address_at(octets, 6))
    }

    // A frame entered the service from the address.
    fn add(&mut self, service: ServiceId, from: Mac) -> Result<(), NoMemory>
        ensures { OnOk result ((other : ServiceId) (address : Address) → has_source self.new other.0 address.0 ≡ (if service.0 == other.0 && bytes_eq from.0 address.0 then true else has_source self.old other.0 address.0)) }
    {
        let source = Source {
            service: service.0,
            address: from,
        };
        self.set.insert(source)?;
        Ok(())
    }
}
