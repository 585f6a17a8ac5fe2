//! What is known of a network before its cases, and of each fault alone.
ghost use Rattle.std.specs.Prelude.{◌≡◌, ◌<◌, ◌+◌, length, IfOk, OnOk, [], ◌∷◌};
ghost use Rattle.network_model.specs.State.{NetworkState};
ghost use Rattle.survey_reach.specs.Reach.{HasBefallen};
ghost use Rattle.survey_text.specs.Surveys.{AreLeft, AreServices, AreShapes, IsKnown, IsOver, fault_in};

use crate::change::Change;
use crate::over::Over;
use crate::service::Service;
use net_base::{List, NoMemory};
use survey_laws::Fault;
use survey_reach::{FailedGround, Reaching, Shape, all_faults};

/// What a fault changes alone, service by service.
#[derive(Drop)]
pub struct Alone {
    pub changes: Vec<Change>,
}

/// The services of a network, its faults, and what each of these changes alone, as far as it is known.
#[derive(Drop)]
pub struct Known {
    pub services: Vec<Service>,
    pub faults: List<Fault>,
    pub alone: Vec<Alone>,
}

// The services over the ground, on which no fault has befallen.
#[tactic(auto, using(crate::proofs::KnownLemmas::made_start, crate::proofs::KnownLemmas::own_shape))]
fn services_of(
    over: Over<'_>,
    reaching: &mut Reaching,
    shapes: Vec<Shape>,
) -> Result<Vec<Service>, NoMemory>
    ghost before: { NetworkState }
    requires over { IsOver before over }
    requires befallen { HasBefallen over.plan.now before [] reaching.old }
    requires shapes { AreShapes over.plan.now shapes.items }
    ensures { IfOk result (λ services. AreServices over.entry.plan.now before services.items) }
{
    let mut services = Vec::new(over.alloc);
    for shape in shapes {
        services.push(Service::new(over, reaching, shape)?)?;
    }
    Ok(services)
}

impl Known {
    /// What is known before the first case.
    pub fn new(
        over: Over<'_>,
        reaching: &mut Reaching,
        shapes: Vec<Shape>,
    ) -> Result<Known, NoMemory>
        ghost before: { NetworkState }
        requires over { IsOver before over }
        requires shapes { AreShapes over.plan.now shapes.items }
        ensures { IfOk result (IsKnown over.entry.plan.now before 0) }
    {
        let unfailed = FailedGround {
            plan: over.plan,
            ground: over.ground,
            faults: &[],
        };
        if let Err(NoMemory) = reaching.befall(unfailed) {
            drop(shapes);
            return Err(NoMemory);
        }
        match services_of(over, reaching, shapes) {
            Ok(services) => Known::of_services(over, services),
            Err(NoMemory) => Err(NoMemory),
        }
    }

    // What is known of these services before the first case.
    fn of_services(over: Over<'_>, services: Vec<Service>) -> Result<Known, NoMemory>
        ghost before: { NetworkState }
        requires over { IsOver before over }
        requires services { AreServices over.plan.now before services.items }
        ensures { IfOk result (IsKnown over.entry.plan.now before 0) }
    {
        match all_faults(over.alloc, over.plan, over.ground) {
            Ok(faults) => Ok(Known {
                services,
                faults,
                alone: Vec::new(over.alloc),
            }),
            Err(NoMemory) => {
                drop(services);
                Err(NoMemory)
            }
        }
    }

    /// The fault at a place.
    #[tactic(auto, using(crate::proofs::PartLemmas::fault_read))]
    pub fn fault_at(&self, place: usize) -> Fault
        requires { place < length self.now.faults }
        ensures { result ≡ fault_in self.now.faults place }
    {
        self.faults.as_slice()[place]
    }

    /// Keeps what one more fault changes alone.
    pub fn keep(&mut self, over: Over<'_>, changes: &[Change]) -> Result<(), NoMemory>
        ghost before: { NetworkState }
        requires known { IsKnown over.plan.now before (length self.old.alone.items) self.old }
        requires changes { AreLeft over.plan.now before (fault_in self.old.faults (length self.old.alone.items) ∷ []) [] changes.now }
        requires within { length self.old.alone.items < length self.old.faults }
        ensures known { OnOk result (IsKnown over.entry.plan.now before (length self.old.alone.items + 1) self.new) }
        ensures services { self.new.services.items ≡ self.old.services.items }
        ensures faults { self.new.faults ≡ self.old.faults }
    {
        let changes = Vec::from_slice(over.alloc, changes)?;
        self.alone.push(Alone { changes })?;
        Ok(())
    }
}
