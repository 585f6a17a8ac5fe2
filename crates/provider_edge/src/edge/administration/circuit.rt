//! A circuit is turned on or off.
ghost use Rattle.std.specs.Prelude.{◌≡◌, Some, true, OnOk};
ghost use Rattle.net_base.specs.{declared.plan.circuit_plan.CircuitPlan.{CircuitPlan}, plan.Places.{circuit_row}};
ghost use Rattle.edge_model.specs.{Circuit.{turned}, declared.input.Input.TheVariants.{Circuit}};
ghost use Rattle.edge_forwarding.specs.Forwarding.{own_service};
ghost use Rattle.provider_edge.specs.{AtWork.{IsBegun, Takes, TakesBy}, Lists.{Keeps, seen}};

use crate::Edge;
use net_base::{CircuitId, Link, NoMemory, ServiceId};
use peer_dialogue::AtWork;

impl Edge {
    // The edge turns a circuit of its own that is not so already, and mends its ends.
    pub(crate) fn circuit<L: Link>(
        &mut self,
        circuit: CircuitId,
        on: bool,
        work: &mut AtWork<'_, L>,
    ) -> Result<(), NoMemory>
        requires { IsBegun self.old work.old }
        ensures goes { Takes L.calls self.old work.old self.new work.new }
        ensures step { OnOk result (TakesBy L.calls self.old work.old self.new work.new (Circuit circuit on)) }
    {
        let Some(service) = self.own_service(circuit) else {
            work.effects.idle = true;
            return Ok(());
        };
        if self.is_on(circuit) == on {
            work.effects.idle = true;
            return Ok(());
        }
        self.turn_circuit(circuit, service, on);
        self.mend(work)
    }

    // Turns a circuit of the edge; where it is off, the bridge forgets what it learned there.
    fn turn_circuit(&mut self, circuit: CircuitId, service: ServiceId, on: bool)
        requires working { self.old.stopped ≡ true }
        requires own { own_service self.old.me (circuit_row self.old.plan circuit) ≡ Some service }
        ensures keeps { Keeps self.old self.new }
        ensures step { (row : CircuitPlan) → circuit_row self.old.plan circuit ≡ Some row → seen self.new ≡ turned self.old.plan circuit row on (seen self.old) }
    {
        self.set_circuit(circuit, service, on);
        if !on {
            self.forget_circuit(circuit, service);
        }
    }
}
