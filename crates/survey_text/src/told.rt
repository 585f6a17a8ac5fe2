//! What a case changes that no part of it does.
ghost use Rattle.std.specs.Prelude.{◌≡◌, ◌≤◌, length, OnOk, []};
ghost use Rattle.network_model.specs.State.{NetworkState};
ghost use Rattle.survey_text.specs.Cases.{count_found, count_lost};
ghost use Rattle.survey_text.specs.Surveys.{AreLeft, AreLess, AreServices, Case, IsOver, any_changed};

use crate::change::Change;
use crate::counting::count_pairs;
use crate::over::Over;
use crate::service::Service;
use net_base::{EdgePlan, NoMemory};
use survey_laws::Fault;
use survey_reach::{FailedGround, Reaching};

/// Works out what faults change, service by service.
#[tactic(auto, using(crate::proofs::LeftLemmas::placed_none, crate::proofs::KnownLemmas::own_service, crate::proofs::KnownLemmas::by_own))]
pub fn fill_changes(
    over: Over<'_>,
    services: &[Service],
    reaching: &mut Reaching,
    faults: &[Fault],
    changes: &mut Vec<Change>,
) -> Result<(), NoMemory>
    ghost before: { NetworkState }
    requires over { IsOver before over }
    requires services { AreServices over.plan.now before services.now }
    ensures { OnOk result (AreLeft over.entry.plan.now before faults.now [] changes.new.items) }
{
    let failed = FailedGround {
        plan: over.plan,
        ground: over.ground,
        faults,
    };
    reaching.befall(failed)?;
    changes.truncate(0);
    for service in services {
        changes.push(service.change(reaching, failed)?)?;
    }
    Ok(())
}

/// Takes away what a part of the case changes.
#[tactic(auto, using(crate::proofs::LeftLemmas::less_steps))]
pub fn leave_out(count: usize, services: &[Service], left: &mut [Change], part: &[Change])
    requires few { count ≤ 64 }
    requires left { length left.old ≡ length services.now }
    requires part { length part.now ≡ length services.now }
    ensures { AreLess count services.now left.old part.now left.new }
{
    for service in 0..services.len() {
        let less = left[service].less(&part[service], services[service].sites.at, count);
        left[service] = less;
    }
}

/// Whether something is left in a service.
pub fn is_some(edges: &[EdgePlan], left: &[Change]) -> bool
    requires { length edges.now ≤ 64 }
    ensures { result ≡ any_changed edges.now left.now }
{
    for change in left {
        if change.is_some(edges) {
            return true;
        }
    }
    false
}

/// How many pairs of sites lose each other.
#[tactic(auto, using(crate::proofs::LeftLemmas::sum_step, crate::proofs::LeftLemmas::lost_of))]
pub fn count_lost(over: Over<'_>, services: &[Service], changes: &[Change]) -> u64
    ghost case: { Case }
    requires over { IsOver case.before over }
    requires services { AreServices over.plan.now case.before services.now }
    requires changes { AreLeft over.plan.now case.before case.faults [] changes.now }
    ensures { result ≡ count_lost over.entry.plan.now case.before case.faults }
{
    let edges = over.plan.edges.as_slice();
    let mut sum = 0u64;
    for service in 0..services.len() {
        sum += count_pairs(&changes[service].lost, &services[service].sites, edges);
    }
    sum
}

/// How many find each other.
#[tactic(auto, using(crate::proofs::LeftLemmas::sum_step, crate::proofs::LeftLemmas::found_of))]
pub fn count_found(over: Over<'_>, services: &[Service], changes: &[Change]) -> u64
    ghost case: { Case }
    requires over { IsOver case.before over }
    requires services { AreServices over.plan.now case.before services.now }
    requires changes { AreLeft over.plan.now case.before case.faults [] changes.now }
    ensures { result ≡ count_found over.entry.plan.now case.before case.faults }
{
    let edges = over.plan.edges.as_slice();
    let mut sum = 0u64;
    for service in 0..services.len() {
        sum += count_pairs(&changes[service].found, &services[service].sites, edges);
    }
    sum
}
