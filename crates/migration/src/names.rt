//! Names and fixed words as texts.
ghost use Rattle.std.specs.Prelude.{◌≡◌};
ghost use Rattle.line_shapes.specs.Words.{edge_name};
ghost use Rattle.migration.specs.Rows.{class_name, mode_name, name_of_service};

use net_base::{Class, EdgeId, Name, Plan, ServiceId};
use std::str;

/// The text of a name.
#[tactic(auto, using(crate::proofs::TextLemmas::name_is_text))]
pub fn name_text(name: &Name) -> &str
    ensures { result.now ≡ name.now }
{
    str::from_utf8(name.as_slice()).unwrap()
}

/// The name of an edge; empty outside the plan.
pub fn edge_text(plan: &Plan, edge: EdgeId) -> &str
    ensures { result.now ≡ edge_name plan.now edge }
{
    match plan.edges.get(edge.0 as usize) {
        Some(row) => name_text(&row.name),
        None => "",
    }
}

/// The name of a service; empty outside the plan.
pub fn service_text(plan: &Plan, service: ServiceId) -> &str
    ensures { result.now ≡ name_of_service plan.now service }
{
    match plan.services.get(service.0 as usize) {
        Some(row) => name_text(&row.name),
        None => "",
    }
}

/// The word of a class.
pub fn class_text(class: Class) -> &'static str
    ensures { result.now ≡ class_name class }
{
    match class {
        Class::Mesh => "mesh",
        Class::Spoke => "spoke",
    }
}

/// The word of a mode (RFC 4448 section 4).
pub fn mode_text(tagged: bool) -> &'static str
    ensures { result.now ≡ mode_name tagged }
{
    if tagged { "tagged" } else { "raw" }
}
