//! The ports of a service at an edge, in order.
ghost use Rattle.std.specs.Prelude.{◌≡◌, ◌≤◌, ◌<◌, ◌++◌, length, slice_get, option_map, position, IfOk, IfSome, OnOk};
ghost use Rattle.net_base.specs.plan.Accepted.{IsChecked};
ghost use Rattle.hvpls_spokes.specs.Search.{place_if};
ghost use Rattle.hvpls_spokes.specs.Port.{ArePortsInOrder, port_kind_of, circuit_ports, is_mesh_port, is_named_port, ports_of, precedes, wire_ports};

use crate::terminal::ends_at;
use crate::{Port, PortKind, PortName};
use net_base::{
    CircuitId, CircuitPlan, Class, EdgeId, NoMemory, Plan, ServiceId, WireId, WirePlan,
};
use std::alloc::Global;
use std::marker::Model;

/// The ports of a service at an edge, at most 512, numbered from 0. A port is found by halves, since they stand in the order of
/// the plan. Contracts see the list of them.
#[derive(Drop)]
pub struct Ports {
    ports: Vec<Port>,
}

impl Model for Ports {
    ghost use Rattle.std.specs.Prelude.{List, ◌≤◌, vec_len};
    ghost use Rattle.hvpls_spokes.specs.{Port.{ArePortsInOrder}, declared.port.Port.{Port}};

    ghost Value = { List Port };

    ghost view = { λ p. p.ports.items };

    ghost invariant = { λ p. (vec_len p.ports ≤ 512) × ArePortsInOrder p.ports.items };
}

impl Ports {
    /// The ports of a service at an edge of a checked plan: its attachment circuits in the order of the plan, and then
    /// the wires of which the edge is a terminal edge in the order of the plan, each as a mesh or a spoke wire by its
    /// class (RFC 4762 sections 4, 4.4 and 10.1). A wire that the edge only switches is no port of it.
    #[tactic(auto, using(crate::proofs::PortsLemmas::ports_fit, crate::proofs::OrderLemmas::ports_in_order))]
    pub fn open(
        alloc: Global,
        plan: &Plan,
        service: ServiceId,
        edge: EdgeId,
    ) -> Result<Ports, NoMemory>
        requires checked { IsChecked plan.now }
        requires service { service.0 < length plan.now.services }
        requires edge { edge.0 < length plan.now.edges }
        ensures { IfOk result (λ ports. ports ≡ ports_of plan.now service edge) }
    {
        let mut ports = Vec::new(alloc);
        push_circuits(&mut ports, plan.circuits.as_slice(), service, edge)?;
        push_wires(&mut ports, plan.wires.as_slice(), service, edge)?;
        Ok(Ports { ports })
    }

    /// The number of ports, at most 512.
    pub fn len(&self) -> u16
        ensures len { result ≡ length self.now }
        ensures within { result ≤ 512 }
    {
        self.ports.len() as u16
    }

    /// The port with this number; `None` exactly where the number is not below the length.
    pub fn get(&self, port: u16) -> Option<Port>
        ensures { result ≡ slice_get self.now port }
    {
        self.ports.get(port as usize).copied()
    }

    /// The kind of the port with this number; `None` exactly where the number is not below the length.
    pub fn kind(&self, port: u16) -> Option<PortKind>
        ensures { result ≡ option_map port_kind_of (slice_get self.now port) }
    {
        match self.get(port) {
            Some(port) => Some(port.kind()),
            None => None,
        }
    }

    /// Whether the port with this number is a mesh wire.
    pub fn is_mesh(&self, port: u16) -> bool
        ensures { result ≡ is_mesh_port self.now port }
    {
        match self.get(port) {
            Some(Port::Mesh(_)) => true,
            Some(Port::Circuit(_) | Port::Spoke(_)) | None => false,
        }
    }

    /// The number of the port of this name; `None` exactly where there is none.
    pub fn find(&self, name: PortName) -> Option<u16>
        ensures port { result ≡ position (is_named_port name) self.now }
        ensures within { IfSome result (λ port. port < 512) }
    {
        let place = count_before(self.ports.as_slice(), name);
        match self.ports.get(place) {
            Some(port) if has_name(*port, name) => Some(place as u16),
            _ => None,
        }
    }
}

// Adds the circuits of the service at the edge.
fn push_circuits(
    ports: &mut Vec<Port>,
    circuits: &[CircuitPlan],
    service: ServiceId,
    edge: EdgeId,
) -> Result<(), NoMemory>
    requires { length circuits.now ≤ 512 }
    ensures { OnOk result (ports.new.items ≡ ports.old.items ++ circuit_ports 0 circuits.now service edge) }
{
    for (place, circuit) in circuits.iter().enumerate() {
        if circuit.service == service && circuit.edge == edge {
            ports.push(Port::Circuit(CircuitId(place as u16)))?;
        }
    }
    Ok(())
}

// Adds the wires of the service of which the edge is a terminal edge.
fn push_wires(
    ports: &mut Vec<Port>,
    wires: &[WirePlan],
    service: ServiceId,
    edge: EdgeId,
) -> Result<(), NoMemory>
    requires { length wires.now ≤ 1024 }
    ensures { OnOk result (ports.new.items ≡ ports.old.items ++ wire_ports 0 wires.now service edge) }
{
    for (place, wire) in wires.iter().enumerate() {
        if ends_at(wire, service, edge) {
            let id = WireId(place as u16);
            ports.push(match wire.class {
                Class::Mesh => Port::Mesh(id),
                Class::Spoke => Port::Spoke(id),
            })?;
        }
    }
    Ok(())
}

// How many ports come before that of this name.
fn count_before(ports: &[Port], name: PortName) -> usize
    requires { ArePortsInOrder ports.now }
    ensures { position (is_named_port name) ports.now ≡ place_if (is_named_port name) result (slice_get ports.now result) }
{
    ports.partition_point(|port| precedes(*port, name))
}

// Whether the port comes before that of this name.
fn precedes(port: Port, name: PortName) -> bool
    ensures { result ≡ precedes name port }
{
    match name {
        PortName::Circuit(circuit) => match port {
            Port::Circuit(at) => at.0 < circuit.0,
            Port::Mesh(_) | Port::Spoke(_) => false,
        },
        PortName::Wire(wire) => match port {
            Port::Circuit(_) => true,
            Port::Mesh(at) | Port::Spoke(at) => at.0 < wire.0,
        },
    }
}

// Whether the port has this name.
fn has_name(port: Port, name: PortName) -> bool
    ensures { result ≡ is_named_port name port }
{
    match name {
        PortName::Circuit(circuit) => match port {
            Port::Circuit(at) => at == circuit,
            Port::Mesh(_) | Port::Spoke(_) => false,
        },
        PortName::Wire(wire) => match port {
            Port::Circuit(_) => false,
            Port::Mesh(at) | Port::Spoke(at) => at == wire,
        },
    }
}
