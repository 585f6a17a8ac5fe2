//! Frames at one bridge, the same work on a map alone, and addresses that age out of a table, for `bench/learning`, which measures them.
//! Three numbers follow the program's name: 0, 1 or 2 for what is done, how many stations there are, and how many rounds.
#![tactic(auto)]

ghost use Rattle.std.specs.Prelude.{◌≡◌, ◌<◌, ◌≤◌, ℕ, [], true, false, length, IfSome};
ghost use Rattle.net_base.specs.plan.Accepted.{IsChecked};
ghost use Rattle.hvpls_spokes.specs.PortSet.{holds_port};
ghost use Rattle.mac_table.specs.Addresses.{NoneAfter};
ghost use Rattle.net_values.specs.Mac.{is_group_address};

use hvpls_spokes::{PortSet, Ports};
use indexmap::IndexMap;
use mac_table::MacTable;
use net_base::{
    Addr, CircuitPlan, EdgeId, EdgePlan, List, Mac, Name, Plan, ServiceId, ServicePlan,
};
use std::alloc::Global;
use std::env;
use std::process::ExitCode;
use vsi_bridge::Bridge;

fn main(rt: HostRuntime) -> ExitCode {
    let done = match numbers(&rt) {
        Some((0, held, rounds)) => all_decide(rt.alloc(), held, rounds),
        Some((1, held, rounds)) => all_look_up(rt.alloc(), held, rounds),
        Some((_, held, rounds)) => all_age(rt.alloc(), held, rounds),
        None => None,
    };
    match done {
        Some(_) => ExitCode::from(0),
        None => ExitCode::from(1),
    }
}

// The three numbers of the command line.
fn numbers(rt: &HostRuntime) -> Option<(u32, u32, u32)> {
    let mut words = env::args(rt).ok()?.skip(1);
    let what = words.next()?.parse::<u32>().ok()?;
    let held = words.next()?.parse::<u32>().ok()?;
    let rounds = words.next()?.parse::<u32>().ok()?;
    Some((what, held, rounds))
}

// ---- stations

// The address of a station.
fn address_of(number: u32) -> Mac
    ensures { is_group_address result.0 ≡ false }
{
    let [_, high, middle, low] = number.to_be_bytes();
    Mac([2, 0, 0, high, middle, low])
}

// The station that sends the frame of a round, among so many, and the one that it is to.
fn stations_of(round: u32, held: u32) -> (u32, u32) {
    let from = round % held.max(1);
    (from, (from ^ 1) % held.max(1))
}

// The port of a station.
fn port_of(number: u32) -> u16
    ensures { result < 2 }
{
    if number % 2 == 0 { 0 } else { 1 }
}

// ---- frames at a bridge

// A circuit of the one service at the one edge.
fn circuit(name: &str) -> Option<CircuitPlan> {
    Some(CircuitPlan {
        name: Name::read(name)?,
        edge: EdgeId(0),
        service: ServiceId(0),
        tag: None,
    })
}

// An edge.
fn edge() -> Option<EdgePlan> {
    Some(EdgePlan {
        name: Name::read("e")?,
        address: Addr([10, 0, 0, 1]),
        first_label: 16,
        keepalive: 30,
        max_pdu: 4096,
    })
}

// A service.
fn service() -> Option<ServicePlan> {
    Some(ServicePlan {
        name: Name::read("s")?,
        mtu: 1500,
        age: 300,
    })
}

// Adds an edge with two circuits of one service.
fn fill(plan: &mut Plan) -> Option<()> {
    plan.edges.push(edge()?).ok()?;
    plan.services.push(service()?).ok()?;
    plan.circuits.push(circuit("c")?).ok()?;
    plan.circuits.push(circuit("d")?).ok()
}

// An edge with two circuits of one service.
fn plan(alloc: Global) -> Option<Plan> {
    let mut plan = Plan {
        edges: List::new(alloc),
        services: List::new(alloc),
        circuits: List::new(alloc),
        wires: List::new(alloc),
    };
    fill(&mut plan)?;
    Some(plan)
}

// Whether it is a plan of one edge and one service that a network can be made of.
fn is_good(plan: &Plan) -> bool
    ensures checked { result ≡ true → IsChecked plan.now }
    ensures edge { result ≡ true → 0 < length plan.now.edges }
    ensures service { result ≡ true → 0 < length plan.now.services }
{
    if plan.edges.len() != 1 || plan.services.len() != 1 {
        return false;
    }
    if plan.circuits.len() > 2 || plan.wires.len() > 0 {
        return false;
    }
    plan.check().is_ok()
}

// A bridge over the two circuits.
fn bridge(alloc: Global) -> Option<Bridge>
    ensures { IfSome result (λ bridge. bridge.entries ≡ []) }
{
    let plan = plan(alloc)?;
    if !is_good(&plan) {
        return None;
    }
    let ports = Ports::open(alloc, &plan, ServiceId(0), EdgeId(0)).ok()?;
    Bridge::open(alloc, ports, 300).ok()
}

// The first two ports.
#[tactic(auto, using(crate::proofs::PortLemmas::both_had, crate::proofs::PortLemmas::both_alone))]
fn both_ports() -> PortSet
    ensures both { (p : ℕ) → p < 2 → holds_port result p ≡ true }
    ensures alone { (p : ℕ) → holds_port result p ≡ true → p < 2 }
{
    let mut ports = PortSet::empty();
    ports.insert(0);
    ports.insert(1);
    ports
}

// One frame.
fn decides(bridge: &mut Bridge, forwarding: &PortSet, from: u32, to: u32) -> bool
    requires ports { (p : ℕ) → holds_port forwarding.now p ≡ true → p < length bridge.old.ports }
    requires both { (p : ℕ) → p < 2 → holds_port forwarding.now p ≡ true }
    requires ticks { NoneAfter 10 bridge.old.entries }
    ensures ticks { NoneAfter 10 bridge.new.entries }
    ensures ports { bridge.new.ports ≡ bridge.old.ports }
{
    let ports = bridge.decide(
        port_of(from),
        address_of(from),
        address_of(to),
        10,
        forwarding,
    );
    ports.contains(0)
}

// So many frames at a bridge of two ports; how many left by the first of them.
fn decide_each(bridge: &mut Bridge, held: u32, rounds: u32) -> u64
    requires ports { 2 ≤ length bridge.old.ports }
    requires ticks { NoneAfter 10 bridge.old.entries }
{
    let forwarding = both_ports();
    let mut left: u64 = 0;
    for round in 0..rounds {
        let (from, to) = stations_of(round, held);
        if decides(bridge, &forwarding, from, to) {
            left = left.wrapping_add(1);
        }
    }
    left
}

// Frames between so many stations.
fn all_decide(alloc: Global, held: u32, rounds: u32) -> Option<u64> {
    let mut bridge = bridge(alloc)?;
    if bridge.ports().len() < 2 {
        return None;
    }
    Some(decide_each(&mut bridge, held, rounds))
}

// ---- a map alone

// What a frame does to a map alone.
fn looks_up(map: &mut IndexMap<Mac, (u16, u64)>, from: u32, to: u32) -> bool {
    let _ = map.insert(address_of(from), (port_of(from), 10)).is_ok();
    match map.get(&address_of(to)).copied() {
        Some(value) => value.0 == 0,
        None => false,
    }
}

// The same on a map alone.
fn all_look_up(alloc: Global, held: u32, rounds: u32) -> Option<u64> {
    let mut map: IndexMap<Mac, (u16, u64)> = IndexMap::with_capacity(alloc, 4096).ok()?;
    let mut left: u64 = 0;
    for round in 0..rounds {
        let (from, to) = stations_of(round, held);
        if looks_up(&mut map, from, to) {
            left = left.wrapping_add(1);
        }
    }
    Some(left)
}

// ---- ageing

// A station comes at each tick, and one goes that came `held` ticks before.
#[tactic(auto, using(mac_table::proofs::AddressLemmas::none_after_later))]
fn age_each(table: &mut MacTable, held: u32, rounds: u32)
    requires { table.old.entries ≡ [] }
{
    for tick in 0..rounds as u64 {
        table.learn(address_of(tick as u32), 0, tick);
        table.age(tick, held);
    }
}

// Addresses age out of a table.
fn all_age(alloc: Global, held: u32, rounds: u32) -> Option<u64> {
    let mut table = MacTable::open(alloc, 4096).ok()?;
    age_each(&mut table, held, rounds);
    Some(table.len() as u64)
}
