//! The events of the network.
ghost use Rattle.std.specs.Prelude.{◌≡◌, ◌<◌, ◌≤◌, ◌+◌, Some, true, length, IfOk, OnOk};
ghost use Rattle.net_base.specs.{plan.Places.{circuit_row}, plan.Planned.{IsEventOf}};
ghost use Rattle.edge_model.specs.Step.{edge_step};
ghost use Rattle.network_model.specs.{Absorb.{absorb, begin_at, taken_all}, Frame.{frame_event}, State.{with_frame}};
ghost use Rattle.network_model.specs.{Step.{brings}, Tick.{tick_event, ticks_from}};
ghost use Rattle.provider_edge.specs.Taking.{IsInRange};
ghost use Rattle.psn_net.specs.Lists.{HasAnswered, HasEntered, HasRoom, HasStepped, KeepsNetwork, edge_of, network_seen};
ghost use Rattle.psn_net.specs.Working.{is_answered};

use crate::parts::Parts;
use crate::trail::{NO_TRAIL, Trail};
use edge_model::Input;
use net_base::{CircuitId, EdgeId, Entry, Event, NoMemory, Octets};
use std::alloc::Global;

impl Parts {
    // A tick passes for the packets under way, and then at each edge.
    #[tactic(auto, using(crate::proofs::TickLemmas::tick_joined))]
    pub(crate) fn tick(&mut self, alloc: Global) -> Result<(), NoMemory>
        requires room { HasRoom self.old }
        requires time { self.old.packets.ticks < length self.old.trace }
        ensures keeps { KeepsNetwork self.old self.new }
        ensures step { OnOk result (HasStepped self.old self.new (tick_event self.old.plan (network_seen self.old))) }
    {
        match self.age() {
            Ok(()) => self.tick_edges(alloc),
            Err(fault) => Err(fault),
        }
    }

    // A tick passes at each edge, in the plan's order.
    #[tactic(auto, using(crate::proofs::TickLemmas::tick_steps))]
    fn tick_edges(&mut self, alloc: Global) -> Result<(), NoMemory>
        requires room { HasRoom self.old }
        ensures keeps { KeepsNetwork self.old self.new }
        ensures step { OnOk result (HasStepped self.old self.new (ticks_from self.old.plan 0 (length self.old.plan.edges) (network_seen self.old))) }
    {
        let count = self.plan.edges.len();
        for place in 0..count {
            self.absorb_input(alloc, EdgeId(place as u16), NO_TRAIL, Input::Tick)?;
        }
        Ok(())
    }

    // An edge takes an input that has this trail, and its work goes into the network.
    #[tactic(auto, using(crate::proofs::ConnectionLemmas::input_absorbed))]
    pub(crate) fn absorb_input(
        &mut self,
        alloc: Global,
        me: EdgeId,
        trail: Trail,
        input: Input<'_>,
    ) -> Result<(), NoMemory>
        requires me { me.0 < length self.old.plan.edges }
        requires range { IsInRange input }
        requires passed { trail.hops ≤ self.old.packets.last }
        requires room { HasRoom self.old }
        ensures keeps { KeepsNetwork self.old self.new }
        ensures room { OnOk result (HasRoom self.new) }
        ensures step { OnOk result (HasStepped self.old self.new (absorb me trail.origin trail.hops (edge_step self.old.plan taken_all input.entry (begin_at (network_seen self.old) me)) (network_seen self.old))) }
    {
        match self.drive(alloc, me, input) {
            Ok(effects) => self.absorb(alloc, me, trail, effects.list),
            Err(fault) => Err(fault),
        }
    }

    // Does an event that is the input of one edge.
    pub(crate) fn answer(&mut self, alloc: Global, event: &Event) -> Result<(), NoMemory>
        requires event { IsEventOf self.old.plan event.now }
        requires answered { is_answered event.now ≡ true }
        requires room { HasRoom self.old }
        ensures keeps { KeepsNetwork self.old self.new }
        ensures step { OnOk result (HasStepped self.old self.new (brings self.old.plan event.now (network_seen self.old))) }
    {
        match *event {
            Event::Circuit { circuit, on } => {
                let me = self.edge_of(circuit);
                self.answer_input(alloc, me, Input::Circuit { circuit, on })
            }
            Event::Wire { edge, wire, on } => {
                self.answer_input(alloc, edge, Input::Wire { wire, on })
            }
            Event::Status { edge, wire, bits } => {
                self.answer_input(alloc, edge, Input::Status { wire, bits })
            }
            Event::Priority {
                edge,
                wire,
                priority,
            } => self.answer_input(alloc, edge, Input::Priority { wire, priority }),
            Event::Ping { edge, wire } => self.answer_input(alloc, edge, Input::Ping { wire }),
            _ => unreachable!(),
        }
    }

    // An edge takes an input. Where it does not apply that is told, and else the edge's work goes into the network.
    fn answer_input(&mut self, alloc: Global, me: EdgeId, input: Input<'_>) -> Result<(), NoMemory>
        requires me { me.0 < length self.old.plan.edges }
        requires range { IsInRange input }
        requires room { HasRoom self.old }
        ensures keeps { KeepsNetwork self.old self.new }
        ensures step { OnOk result (HasAnswered me self.old self.new (edge_step self.old.plan taken_all input.entry (begin_at (network_seen self.old) me))) }
    {
        let effects = self.drive(alloc, me, input)?;
        if effects.idle {
            return self.tell(Entry::Idle);
        }
        self.absorb(alloc, me, NO_TRAIL, effects.list)
    }

    // A customer's frame enters at a circuit.
    #[tactic(auto, using(crate::proofs::NetworkLemmas::frame_idle_stepped, crate::proofs::NetworkLemmas::frame_stepped))]
    pub(crate) fn frame(
        &mut self,
        alloc: Global,
        circuit: CircuitId,
        bytes: Octets,
    ) -> Result<(), NoMemory>
        requires circuit { circuit.0 < length self.old.plan.circuits }
        requires room { HasRoom self.old }
        ensures keeps { KeepsNetwork self.old self.new }
        ensures step { OnOk result (HasStepped self.old self.new (frame_event self.old.plan circuit bytes (circuit_row self.old.plan circuit) (network_seen self.old))) }
    {
        let me = self.edge_of(circuit);
        let frame = Input::Frame {
            circuit,
            bytes: bytes.as_slice(),
        };
        match self.drive(alloc, me, frame) {
            Ok(effects) => {
                if effects.idle {
                    return self.tell(Entry::Idle);
                }
                match self.enter(circuit, bytes) {
                    Ok(origin) => {
                        let trail = Trail { origin, hops: 0 };
                        self.absorb(alloc, me, trail, effects.list)
                    }
                    Err(fault) => Err(fault),
                }
            }
            Err(fault) => Err(fault),
        }
    }

    /// The edge of a circuit.
    pub fn edge_of(&self, circuit: CircuitId) -> EdgeId
        requires { circuit.0 < length self.now.plan.circuits }
        ensures edge { edge_of (circuit_row self.now.plan circuit) ≡ Some result }
        ensures within { result.0 < length self.now.plan.edges }
    {
        self.plan.circuits.as_slice()[circuit.0 as usize].edge
    }

    // The frame has the next number, and is told as it enters.
    #[tactic(auto, unfolding(crate::specs::Lists::network_seen, network_model::specs::State::with_frame))]
    fn enter(&mut self, circuit: CircuitId, bytes: Octets) -> Result<u64, NoMemory>
        requires room { HasRoom self.old }
        ensures keeps { KeepsNetwork self.old self.new }
        ensures room { OnOk result (HasRoom self.new) }
        ensures entered { IfOk result (HasEntered self.old self.new circuit bytes) }
    {
        // Asked so that what always holds of it is at hand for the proof.
        let _told = self.ledger.trace().len();
        let number = self.entered + 1;
        self.entered = number;
        let entry = Entry::In {
            circuit,
            number,
            bytes,
        };
        match self.tell(entry) {
            Ok(()) => Ok(number),
            Err(fault) => Err(fault),
        }
    }
}
