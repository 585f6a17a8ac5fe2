//! What holds of the ports of every checked plan.
ghost use Rattle.hvpls_spokes.specs.Laws.{SpokeEdgesHaveNoMeshPort};

/// An edge that starts a spoke of a service has no mesh port of that service: it reaches the core by its spokes alone (RFC 4762
/// section 10.1).
#[tactic(auto, using(crate::proofs::RoleLemmas::no_mesh_port))]
pub fn spoke_edges_have_no_mesh_port()
    ensures { SpokeEdgesHaveNoMeshPort }
{}
