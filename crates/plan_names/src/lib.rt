//! The names of a plan, by which texts name its rows, and the decimal numbers of texts.
#![tactic(auto)]

mod decimals;
mod name_index;
mod name_lists;
mod plan_names;
mod row_names;

pub use decimals::decimal;
pub use name_index::NameIndex;
pub use name_lists::NameLists;
pub use plan_names::PlanNames;
pub use row_names::{names_of_circuits, names_of_edges, names_of_services, names_of_wires};
