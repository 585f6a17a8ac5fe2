//! A wire is put on or off, and the failure bits of the edge's end of it and the priority of a spoke are set.
ghost use Rattle.edge_model.specs.{EndPlaces.{ends_here, passes}, State.{with_bits, with_priority}, Wire.{turned_wire}};
ghost use Rattle.edge_model.specs.declared.input.Input.TheVariants.{Priority, Status, Wire};
ghost use Rattle.std.specs.Prelude.{◌≡◌, ◌<◌, ◌≤◌, true, length, OnOk};
ghost use Rattle.provider_edge.specs.{AtWork.{IsBegun, Takes, TakesBy}, Lists.{Keeps, seen}};

use crate::Edge;
use net_base::{Link, NoMemory, WireId};
use peer_dialogue::AtWork;

impl Edge {
    // A wire that passes the edge is put on or off, where it is not so already.
    pub(crate) fn wire<L: Link>(
        &mut self,
        wire: WireId,
        on: bool,
        work: &mut AtWork<'_, L>,
    ) -> Result<(), NoMemory>
        requires { IsBegun self.old work.old }
        ensures goes { Takes L.calls self.old work.old self.new work.new }
        ensures step { OnOk result (TakesBy L.calls self.old work.old self.new work.new (Wire wire on)) }
    {
        if !self.passes(wire) || self.is_wire_on(wire) == on {
            work.effects.idle = true;
            return Ok(());
        }
        self.turn_wire(wire, on);
        self.mend(work)
    }

    // The failure bits of the edge's end of a wire are set, where they are others.
    pub(crate) fn status<L: Link>(
        &mut self,
        wire: WireId,
        bits: u8,
        work: &mut AtWork<'_, L>,
    ) -> Result<(), NoMemory>
        requires begun { IsBegun self.old work.old }
        requires small { bits ≤ 31 }
        ensures goes { Takes L.calls self.old work.old self.new work.new }
        ensures step { OnOk result (TakesBy L.calls self.old work.old self.new work.new (Status wire bits)) }
    {
        if !self.ends_here(wire) || self.bits_of(wire) == bits {
            work.effects.idle = true;
            return Ok(());
        }
        self.set_bits(wire, bits);
        self.mend(work)
    }

    // The priority of a spoke that starts at the edge is set, where it is another one.
    pub(crate) fn priority<L: Link>(
        &mut self,
        wire: WireId,
        priority: u8,
        work: &mut AtWork<'_, L>,
    ) -> Result<(), NoMemory>
        requires { IsBegun self.old work.old }
        ensures goes { Takes L.calls self.old work.old self.new work.new }
        ensures step { OnOk result (TakesBy L.calls self.old work.old self.new work.new (Priority wire priority)) }
    {
        if !self.is_own_spoke(wire) || self.priority_of(wire) == priority {
            work.effects.idle = true;
            return Ok(());
        }
        self.set_priority(wire, priority);
        self.mend(work)
    }

    // Whether the wire passes the edge.
    fn passes(&self, wire: WireId) -> bool
        ensures passes { result ≡ passes self.now.plan self.now.me wire }
        ensures within { result ≡ true → wire.0 < length self.now.plan.wires }
    {
        self.ends.passes(wire)
    }

    // Whether the edge is a terminal edge of the wire.
    fn ends_here(&self, wire: WireId) -> bool
        ensures ends { result ≡ ends_here self.now.plan self.now.me wire }
        ensures within { result ≡ true → wire.0 < length self.now.plan.wires }
    {
        self.ends.ends_here(wire)
    }

    // Puts a wire on or off; its ends are declined no longer where it is put on. They are marked.
    fn turn_wire(&mut self, wire: WireId, on: bool)
        requires working { self.old.stopped ≡ true }
        requires within { wire.0 < length self.old.plan.wires }
        ensures keeps { Keeps self.old self.new }
        ensures step { seen self.new ≡ turned_wire wire on (seen self.old) }
    {
        let marks = self.marks_at(wire);
        self.wires_on[wire.0 as usize] = on;
        self.marks = marks;
        if on {
            self.ends.renew(wire);
        }
    }

    // Sets the failure bits of the end of a wire, at most 31, and marks it.
    fn set_bits(&mut self, wire: WireId, bits: u8)
        requires working { self.old.stopped ≡ true }
        requires within { wire.0 < length self.old.plan.wires }
        requires small { bits ≤ 31 }
        ensures keeps { Keeps self.old self.new }
        ensures step { seen self.new ≡ with_bits wire bits (seen self.old) }
    {
        let marks = self.marks_at(wire);
        self.bits[wire.0 as usize] = bits;
        self.marks = marks;
    }

    // Sets the priority number of the spoke on a wire, and marks its ends.
    fn set_priority(&mut self, wire: WireId, priority: u8)
        requires working { self.old.stopped ≡ true }
        requires within { wire.0 < length self.old.plan.wires }
        ensures keeps { Keeps self.old self.new }
        ensures step { seen self.new ≡ with_priority wire priority (seen self.old) }
    {
        let marks = self.marks_at(wire);
        self.priorities[wire.0 as usize] = priority;
        self.marks = marks;
    }
}
