//! The services of a document.

use net_base::ServicePlan;
use plan_names::NameIndex;

/// The services of a document, and the index of their names.
#[derive(Clone, Copy)]
pub struct ServiceRows<'a, 'n> {
    pub index: &'a NameIndex<'n>,
    pub rows: &'a [ServicePlan],
}
