//! What an end is to its service.
ghost use Rattle.std.specs.Prelude.{◌≡◌};
ghost use Rattle.edge_model.specs.Role.{end_role_of};

use hvpls_spokes::is_last;
use net_base::{Class, EdgeId, WirePlan};
use pw_signalling::EndRole;

/// What an edge's end of a wire is to its service (RFC 4762 section 10.1), where `chosen` says whether the wire is the spoke that
/// the edge has chosen for the service (RFC 6870).
pub fn role_of(row: &WirePlan, me: EdgeId, chosen: bool) -> EndRole
    ensures role { result ≡ end_role_of row.now me chosen }
{
    match row.class {
        Class::Mesh => EndRole::Mesh,
        Class::Spoke if is_last(row.path.as_slice(), me) => EndRole::Core,
        Class::Spoke if chosen => EndRole::Chosen,
        Class::Spoke => EndRole::NotChosen,
    }
}
