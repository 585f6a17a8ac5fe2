//! The ports to which a MAC withdraw is passed.
ghost use Rattle.std.specs.Prelude.{◌≡◌, ◌<◌, true, ℕ, length};
ghost use Rattle.hvpls_spokes.specs.PortSet.{holds_port};
ghost use Rattle.hvpls_spokes.specs.declared.edge_role.Role.TheVariants as roles;
ghost use Rattle.mac_withdraw.specs.Passing.{is_passed_to, is_wire_at};

use hvpls_spokes::{PortKind, PortSet, Ports, Role};

/// The ports by which an edge with this role passes on a MAC withdraw that came by the wire port `from`: a core edge from a spoke
/// by all other wires, and from a mesh wire by all spokes; a spoke edge by none (RFC 4762 section 6.2).
pub fn pass_to(ports: &Ports, role: Role, from: u16) -> PortSet
    requires { is_wire_at ports.now from ≡ true }
    ensures { (p : ℕ) → holds_port result p ≡ is_passed_to role ports.now from p }
{
    match role {
        Role::SpokeEdge => PortSet::empty(),
        Role::Core => all_but(ports, from),
    }
}

// What a core edge passes on from the wire port `from`: by all wires but that one, and from a mesh wire by no mesh wire.
fn all_but(ports: &Ports, from: u16) -> PortSet
    requires { is_wire_at ports.now from ≡ true }
    ensures { (p : ℕ) → holds_port result p ≡ is_passed_to roles.Core ports.now from p }
{
    let mut passed = PortSet::empty();
    for port in 0..ports.len() {
        if is_passed(ports, from, port) {
            passed.insert(port);
        }
    }
    passed
}

// Whether a core edge passes on by this port what came by the port `from`.
fn is_passed(ports: &Ports, from: u16, port: u16) -> bool
    requires port { port < length ports.now }
    requires from { from < length ports.now }
    ensures { result ≡ is_passed_to roles.Core ports.now from port }
{
    match ports.kind(port) {
        Some(PortKind::Mesh) => port != from && !ports.is_mesh(from),
        Some(PortKind::Spoke) => port != from,
        _ => false,
    }
}
