//! Over what a survey is made.
ghost use Rattle.std.specs.Prelude.{◌≡◌, ◌==◌, ◌<◌, Some, length, slice_get};
ghost use Rattle.network_model.specs.State.{NetworkState};
ghost use Rattle.survey_text.specs.{Relations.{is_site_at, is_site_row}, Surveys.{IsOver}, Text.{is_off, service_name}};

use net_base::{CircuitPlan, Plan, ServiceId};
use std::alloc::Global;
use survey_reach::Ground;

/// The plan and the ground of a network, and from where memory comes.
#[derive(Clone, Copy)]
pub struct Over<'a> {
    pub alloc: Global,
    pub plan: &'a Plan,
    pub ground: &'a Ground,
}

/// Over what a survey is made, and one of the services.
#[derive(Clone, Copy)]
pub struct OverService<'a> {
    pub over: Over<'a>,
    pub service: ServiceId,
}

impl<'a> Over<'a> {
    /// The name of a service; empty outside the plan.
    pub fn name_of(&self, service: ServiceId) -> &'a [u8]
        ensures { result.now ≡ service_name self.now.plan.now service }
    {
        match self.plan.services.get(service.0 as usize) {
            Some(row) => row.name.as_slice(),
            None => &[],
        }
    }

    /// Whether the circuit at a place, with this row, is a site of the service at the edge: it is one of its circuits there, and on.
    #[tactic(auto, using(crate::proofs::SiteLemmas::site_steps))]
    pub fn is_site_at(
        &self,
        service: ServiceId,
        edge: usize,
        circuit: usize,
        row: &CircuitPlan,
    ) -> bool
        ghost before: { NetworkState }
        requires over { IsOver before self.now }
        requires row { slice_get self.now.plan.now.circuits circuit ≡ Some row.now }
        ensures { result ≡ is_site_at before service edge circuit row.now }
    {
        row.service.0 == service.0 && row.edge.0 as usize == edge && self.ground.on[circuit]
    }

    /// Whether the circuit at a place is one.
    pub fn is_site(&self, service: ServiceId, edge: usize, circuit: usize) -> bool
        ghost before: { NetworkState }
        requires over { IsOver before self.now }
        ensures { result ≡ is_site_row before service edge circuit (slice_get self.now.plan.now.circuits circuit) }
    {
        match self.plan.circuits.get(circuit) {
            Some(row) => self.is_site_at(service, edge, circuit, row),
            None => false,
        }
    }

    /// Whether the circuit at a place, with this row, is one of the service that is off.
    #[tactic(auto, using(crate::proofs::SiteLemmas::site_steps))]
    pub fn is_off(&self, service: ServiceId, circuit: usize, row: &CircuitPlan) -> bool
        ghost before: { NetworkState }
        requires over { IsOver before self.now }
        requires row { slice_get self.now.plan.now.circuits circuit ≡ Some row.now }
        ensures { result ≡ is_off before service circuit row.now }
    {
        row.service.0 == service.0 && !self.ground.on[circuit]
    }
}
