//! The flood set.
ghost use Rattle.std.specs.Prelude.{◌≡◌, ◌<◌, ◌≤◌, ◌&&◌, not, true, ℕ, length};
ghost use Rattle.hvpls_spokes.specs.{PortSet.{holds_port}, Port.{is_mesh_port}, Flood.{is_in_flood}};

use crate::{PortSet, Ports};

/// Where a frame is flooded that came by the port `arrival`: to the forwarding ports other than the arrival,
/// and to no mesh wire where it came by one (RFC 4762 sections 4.1 and 4.4).
pub fn flood_set(ports: &Ports, forwarding: &PortSet, arrival: u16) -> PortSet
    requires { arrival < length ports.now }
    ensures { (p : ℕ) → holds_port result p ≡ is_in_flood ports.now (holds_port forwarding.now) arrival p }
{
    let len = ports.len();
    let mut others = *forwarding;
    others.remove(arrival);
    if ports.is_mesh(arrival) {
        without_mesh(ports, others, len)
    } else {
        others
    }
}

/// Whether a frame that came by the port `arrival` may go to this port, which may be any number: whether the flood set has it. No set
/// is made to answer that (RFC 4762 sections 4.1 and 4.4).
#[tactic(auto, using(crate::proofs::PortSetLemmas::beyond))]
pub fn is_in_flood_set(ports: &Ports, forwarding: &PortSet, arrival: u16, port: u16) -> bool
    requires { (p : ℕ) → holds_port forwarding.now p ≡ true → p < length ports.now }
    ensures flood { result ≡ is_in_flood ports.now (holds_port forwarding.now) arrival port }
    ensures within { result ≡ true → port < 512 }
{
    if port == arrival || port >= ports.len() || !forwarding.contains(port) {
        return false;
    }
    !(ports.is_mesh(port) && ports.is_mesh(arrival))
}

// The set without the mesh wires. A loop under an `if` does not prove.
fn without_mesh(ports: &Ports, set: PortSet, len: u16) -> PortSet
    requires len { len ≡ length ports.now }
    requires within { len ≤ 512 }
    ensures { (p : ℕ) → holds_port result p ≡ (holds_port set p && not (is_mesh_port ports.now p)) }
{
    let mut rest = set;
    for port in 0..len {
        if ports.is_mesh(port) {
            rest.remove(port);
        }
    }
    rest
}
