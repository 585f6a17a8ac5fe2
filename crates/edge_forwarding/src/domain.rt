//! A bridged domain: one service at an edge.
ghost use Rattle.std.specs.Prelude.{◌≡◌, ◌≤◌, ◌<◌, ◌+◌, ◌==◌, ◌&&◌, not, ℕ, true, length, take, drop, slice_get, All, IfOk};
ghost use Rattle.net_base.specs.plan.Accepted.{IsChecked};
ghost use Rattle.hvpls_spokes.specs.{Port.{is_named_port, is_wire}, PortSet.{holds_port}};
ghost use Rattle.mac_table.specs.Addresses.{NoneAfter};
ghost use Rattle.vsi_bridge.specs.Targets.{heard, is_target, known_port};
ghost use Rattle.edge_model.specs.Frame.{destination, source};
ghost use Rattle.edge_forwarding.specs.Change.{AreChanged, IsKeptChanged, MayChange};
ghost use Rattle.edge_forwarding.specs.Domain.{AreNew, IsClosed, IsNew, IsTurned, aged_domain, all_on, cleared_domain, forgot_domain, nothing_told, port_opens, withdrawn_domain};

use crate::domain_change::DomainChange;
use hvpls_spokes::{Port, PortKind, PortName, PortSet, Ports};
use net_base::{EdgeId, List, Mac, NoMemory, Plan, ServiceId};
use std::alloc::Global;
use vsi_bridge::Bridge;

/// A service at an edge: its bridge, and which of its ports forward.
#[derive(Drop)]
pub struct Domain {
    pub(crate) bridge: Bridge,
    pub(crate) forwarding: PortSet,
}

/// The domain of each service that has a port at the edge, in the plan's order, with every circuit on.
#[tactic(auto, using(crate::proofs::DomainLemmas::new_next))]
pub fn open_domains(alloc: Global, plan: &Plan, me: EdgeId) -> Result<Vec<Option<Domain>>, NoMemory>
    requires checked { IsChecked plan.now }
    requires me { me.0 < length plan.now.edges }
    ensures { IfOk result (λ domains. AreNew plan.now me (length plan.now.services) domains.items) }
{
    let mut domains = Vec::new(alloc);
    for (place, service) in plan.services.as_slice().iter().enumerate() {
        let id = ServiceId(place as u16);
        domains.push(open_domain(alloc, plan, id, me, service.age)?)?;
    }
    Ok(domains)
}

// The domain of a service at an edge; none where it has no port.
fn open_domain(
    alloc: Global,
    plan: &Plan,
    service: ServiceId,
    me: EdgeId,
    age: u32,
) -> Result<Option<Domain>, NoMemory>
    requires checked { IsChecked plan.now }
    requires service { service.0 < length plan.now.services }
    requires me { me.0 < length plan.now.edges }
    ensures { IfOk result (λ kept. IsNew plan.now me service age kept) }
{
    let ports = Ports::open(alloc, plan, service, me)?;
    if ports.len() == 0 {
        return Ok(None);
    }
    let forwarding = forwarding_of(&ports);
    let bridge = Bridge::open(alloc, ports, age)?;
    Ok(Some(Domain { bridge, forwarding }))
}

// The ports that forward: every circuit is on, and of no wire anything was told.
fn forwarding_of(ports: &Ports) -> PortSet
    ensures { (p : ℕ) → holds_port result p ≡ port_opens all_on nothing_told ports.now p }
{
    let mut forwarding = PortSet::empty();
    for port in 0..ports.len() {
        if ports.kind(port) == Some(PortKind::Circuit) {
            forwarding.insert(port);
        }
    }
    forwarding
}

impl Domain {
    // The port forwards, or forwards no more.
    fn turn(&mut self, port: PortName, on: bool)
        ensures { IsTurned (is_named_port port) on self.old self.new }
    {
        let Some(port) = self.bridge.ports().find(port) else {
            return;
        };
        if on {
            self.forwarding.insert(port);
        } else {
            self.forwarding.remove(port);
        }
    }

    // The bridge forgets what it learned at the port.
    #[tactic(auto, using(crate::proofs::DomainLemmas::forgot_nothing))]
    fn forget(&mut self, port: PortName)
        ensures { self.new ≡ forgot_domain (is_named_port port) self.old }
    {
        // A table without an address is the common case, and the port need not be looked for.
        if self.bridge.table().len() == 0 {
            return;
        }
        if let Some(port) = self.bridge.ports().find(port) {
            self.bridge.drop_port(port);
        }
    }

    // The bridge forgets what a MAC withdraw by a port names.
    fn withdraw(&mut self, from: u16, addresses: &List<Mac>)
        ensures { self.new ≡ withdrawn_domain from addresses.now self.old }
    {
        self.bridge.withdraw(from, addresses);
    }

    // No wire's port forwards.
    #[tactic(auto, using(crate::proofs::DomainLemmas::closed_next, crate::proofs::DomainLemmas::closed_end))]
    fn close_wires(&mut self)
        ensures { IsClosed self.old self.new }
    {
        for port in 0..self.bridge.ports().len() {
            self.close(port);
        }
    }

    // The port forwards no more, where it leads to a wire.
    fn close(&mut self, port: u16)
        requires { port < 512 }
        ensures bridge { self.new.bridge ≡ self.old.bridge }
        ensures forwarding { (p : ℕ) → holds_port self.new.forwarding p ≡ (holds_port self.old.forwarding p && not (p == port && is_wire (slice_get self.old.bridge.ports port))) }
    {
        match self.bridge.ports().get(port) {
            Some(Port::Mesh(_) | Port::Spoke(_)) => self.forwarding.remove(port),
            Some(Port::Circuit(_)) | None => {}
        }
    }

    // The bridge forgets all that it has learned, port by port.
    #[tactic(auto, using(crate::proofs::EachLemmas::first_dropped, crate::proofs::EachLemmas::none_first))]
    fn clear(&mut self)
        ensures { self.new ≡ cleared_domain self.old }
    {
        'clearing: while let Some(entry) = self.bridge.table().entry(0) {
            self.bridge.drop_port(entry.port);
        }
    }

    // Addresses age: the bridge forgets what it has not heard for as long as its age limit.
    fn age(&mut self, now: u64)
        requires { NoneAfter now self.old.bridge.entries }
        ensures { self.new ≡ aged_domain now self.old }
    {
        self.bridge.tick(now);
    }

    /// The bridge hears an inner frame by a port that forwards, at the tick `now`, and answers the ports to which it goes.
    pub fn hear(&mut self, arrival: u16, frame: &[u8], now: u64) -> PortSet
        requires ports { (p : ℕ) → holds_port self.old.forwarding p ≡ true → p < length self.old.bridge.ports }
        requires on { holds_port self.old.forwarding arrival ≡ true }
        requires ticks { NoneAfter now self.old.bridge.entries }
        requires header { 14 ≤ length frame.now }
        ensures learns { self.new ≡ record self.old { bridge = record self.old.bridge { entries = heard self.old.bridge.entries (source frame.now) arrival now } } }
        ensures targets { (p : ℕ) → holds_port result p ≡ is_target self.old.bridge.ports (holds_port self.old.forwarding) arrival (known_port self.new.bridge.entries (destination frame.now)) p }
        ensures ticks { NoneAfter now self.new.bridge.entries }
    {
        let source = address_at(frame, 6);
        let destination = address_at(frame, 0);
        self.bridge
            .decide(arrival, source, destination, now, &self.forwarding)
    }
}

/// Changes a domain, where there is one.
#[tactic(auto, using(crate::proofs::ChangeLemmas::changed_none))]
pub fn change_kept(kept: &mut Option<Domain>, change: DomainChange<'_>)
    requires { MayChange change kept.old }
    ensures { IsKeptChanged change.entry kept.old kept.new }
{
    let Some(domain) = kept else {
        return;
    };
    match change {
        DomainChange::Turn { port, on } => domain.turn(port, on),
        DomainChange::Forget { port } => domain.forget(port),
        DomainChange::Withdraw { from, addresses } => domain.withdraw(from, addresses),
        DomainChange::Close => domain.close_wires(),
        DomainChange::Clear => domain.clear(),
        DomainChange::Age { now } => domain.age(now),
    }
}

/// Changes each domain.
#[tactic(auto, using(crate::proofs::ChangeLemmas::changed_first, crate::proofs::ChangeLemmas::changed_more, crate::proofs::ChangeLemmas::may_change, crate::proofs::ChangeLemmas::changed_all))]
pub fn change_all(domains: &mut Vec<Option<Domain>>, change: DomainChange<'_>)
    requires { All (MayChange change) domains.old.items }
    ensures { AreChanged change.entry domains.old.items domains.new.items }
{
    for kept in domains.iter_mut() {
        change_kept(kept, change);
    }
}

// The address in the six octets from a place on.
fn address_at(octets: &[u8], at: usize) -> Mac
    requires { at + 6 ≤ length octets.now }
    ensures { result.0 ≡ take 6 (drop at octets.now) }
{
    Mac([
        octets[at],
        octets[at + 1],
        octets[at + 2],
        octets[at + 3],
        octets[at + 4],
        octets[at + 5],
    ])
}
