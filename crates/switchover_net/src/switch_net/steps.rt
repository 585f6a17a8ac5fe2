//! The steps of a line.
ghost use Rattle.std.specs.Prelude.{◌≡◌, ◌<◌, ◌++◌, [], Some, true, length, drop, take, IfOk, OnOk};
ghost use Rattle.independent_model.specs.{Calls.{independent_hears}, Wires.{other_end}};
ghost use Rattle.status_exchange.specs.Exchange.{at_two};
ghost use Rattle.switchover_model.specs.Network.{IsGoing, connects_one, delivers_one, is_waiting, loses_one, setting, takes_all};
ghost use Rattle.switchover_model.specs.Text.{connect_entries, hear_entries, lose_entries, said_entries, set_entries, turned_switch, turned_all, used as used_by};
ghost use Rattle.switchover_net.specs.{Net.{IsReached, Makes}, Pipes.{bytes_of}, Rows.{HasDoneWork, seen_row}};
ghost use Rattle.octet_pipes.specs.Pipes.{pipes_of};

use crate::SwitchNet;
use crate::at_line::AtLine;
use crate::waiting::{is_waiting, put_all};
use independent_mode::{IndepStop, Wish};
use net_base::{EdgeId, LinkCall, List, NoMemory, WireId};
use std::alloc::Global;
use switchover_model::SwitchEntry;

// A way that octets take.
#[derive(Clone, Copy)]
pub(crate) struct Way {
    pub(crate) from: EdgeId,
    pub(crate) to: EdgeId,
}

// What an edge is to call a wire.
#[derive(Clone, Copy)]
pub(crate) struct Setting {
    pub(crate) edge: EdgeId,
    pub(crate) wire: WireId,
    pub(crate) wish: Wish,
}

impl SwitchNet {
    // An edge is connected with another one.
    pub(crate) fn connect_one(
        &mut self,
        me: EdgeId,
        peer: EdgeId,
        work: &mut AtLine,
    ) -> Result<(), NoMemory>
        requires me { me.0 < length self.old.row.plan.edges }
        requires peer { peer.0 < length self.old.row.plan.edges }
        ensures plan { self.new.row.plan ≡ self.old.row.plan }
        ensures step { OnOk result (Makes self.old self.new work.old.out work.new.out (connects_one self.old.row.plan me.0 peer.0) (connect_entries self.old.row.plan me.0 peer.0)) }
    {
        let before = self.row.used(work.alloc, me)?;
        let calls = match self.row.connect(work.alloc, me, peer) {
            Ok(calls) => calls,
            Err(IndepStop::NoMemory) => return Err(NoMemory),
            Err(IndepStop::Link | IndepStop::Refused(_)) => unreachable!(),
        };
        self.tell(Way { from: me, to: peer }, &calls, before.as_slice(), work)
    }

    // An edge calls a wire something else, whose other end is the peer.
    pub(crate) fn set(
        &mut self,
        to: Setting,
        peer: EdgeId,
        work: &mut AtLine,
    ) -> Result<(), NoMemory>
        requires me { to.edge.0 < length self.old.row.plan.edges }
        requires peer { peer.0 < length self.old.row.plan.edges }
        requires ends { other_end self.old.row.plan to.edge.0 to.wire.0 ≡ Some peer }
        ensures plan { self.new.row.plan ≡ self.old.row.plan }
        ensures step { OnOk result (Makes self.old self.new work.old.out work.new.out (setting self.old.row.plan to.edge.0 to.wire.0 to.wish) (set_entries self.old.row.plan to.edge.0 to.wire.0 to.wish)) }
    {
        let before = self.row.used(work.alloc, to.edge)?;
        let calls = match self.row.set(work.alloc, to.edge, to.wire, to.wish) {
            Ok(calls) => calls,
            Err(IndepStop::NoMemory) => return Err(NoMemory),
            Err(IndepStop::Link | IndepStop::Refused(_)) => unreachable!(),
        };
        self.tell(
            Way {
                from: to.edge,
                to: peer,
            },
            &calls,
            before.as_slice(),
            work,
        )
    }

    // An edge loses the connection with another one.
    #[tactic(auto, using(crate::proofs::NetLemmas::was_lost))]
    pub(crate) fn lose_one(
        &mut self,
        me: EdgeId,
        peer: EdgeId,
        work: &mut AtLine,
    ) -> Result<(), NoMemory>
        requires me { me.0 < length self.old.row.plan.edges }
        requires peer { peer.0 < length self.old.row.plan.edges }
        ensures plan { self.new.row.plan ≡ self.old.row.plan }
        ensures step { OnOk result (Makes self.old self.new work.old.out work.new.out (loses_one self.old.row.plan me.0 peer.0) (lose_entries self.old.row.plan me.0 peer.0)) }
    {
        let before = self.row.used(work.alloc, me)?;
        self.row.lose(me, peer);
        self.tell_turned(me, before.as_slice(), &mut work.out)
    }

    // One octet comes, where some is on its way. An octet that completes no PDU changes nothing that is told. Which wires the edge uses is
    // kept from one octet to the next.
    pub(crate) fn deliver_one(
        &mut self,
        way: Way,
        used: &mut Vec<bool>,
        work: &mut AtLine,
    ) -> Result<(), NoMemory>
        requires from { way.from.0 < length self.old.row.plan.edges }
        requires to { way.to.0 < length self.old.row.plan.edges }
        requires reached { IsReached self.old }
        requires used { used.old.items ≡ used_by self.old.row.plan way.to.0 (seen_row self.old.row way.to.0) }
        ensures plan { self.new.row.plan ≡ self.old.row.plan }
        ensures used { OnOk result (used.new.items ≡ used_by self.new.row.plan way.to.0 (seen_row self.new.row way.to.0)) }
        ensures step { OnOk result (Makes self.old self.new work.old.out work.new.out (delivers_one self.old.row.plan way.from.0 way.to.0) (hear_entries self.old.row.plan way.from.0 way.to.0)) }
    {
        if !is_waiting(&self.pipes, way.from.0 as usize, way.to.0 as usize) {
            return Ok(());
        }
        let held = self.row.held(way.to, way.from);
        let calls = self.hear_one(work.alloc, way.from, way.to)?;
        if self.row.held(way.to, way.from) > held {
            return Ok(());
        }
        self.tell(
            Way {
                from: way.to,
                to: way.from,
            },
            &calls,
            used.as_slice(),
            work,
        )?;
        *used = self.row.used(work.alloc, way.to)?;
        Ok(())
    }

    // The first octet on its way is heard. What that puts is given out.
    #[tactic(auto, using(crate::proofs::ReachedLemmas::hears_on, crate::proofs::PipeLemmas::is_two))]
    fn hear_one(
        &mut self,
        alloc: Global,
        from: EdgeId,
        to: EdgeId,
    ) -> Result<List<LinkCall>, NoMemory>
        requires from { from.0 < length self.old.row.plan.edges }
        requires to { to.0 < length self.old.row.plan.edges }
        requires waits { is_waiting (pipes_of self.old.pipes from.0 to.0) ≡ true }
        requires reached { IsReached self.old }
        ensures plan { self.new.row.plan ≡ self.old.row.plan }
        ensures going { IsGoing (independent_hears self.old.row.plan takes_all to.0 from (take 1 (pipes_of self.old.pipes from.0 to.0)) (seen_row self.old.row to.0) []) }
        ensures row { IfOk result (λ calls. HasDoneWork to.0 self.old.row self.new.row calls (independent_hears self.old.row.plan takes_all to.0 from (take 1 (pipes_of self.old.pipes from.0 to.0)) (seen_row self.old.row to.0) [])) }
        ensures pipes { pipes_of self.new.pipes ≡ at_two from.0 to.0 (drop 1 (pipes_of self.old.pipes from.0 to.0)) (pipes_of self.old.pipes) }
    {
        let heard = self
            .row
            .hear(alloc, to, from, self.pipes.front(from, to, 1));
        self.pipes.skip(from, to, 1);
        match heard {
            Ok(calls) => Ok(calls),
            Err(IndepStop::NoMemory) => Err(NoMemory),
            Err(IndepStop::Link | IndepStop::Refused(_)) => unreachable!(),
        }
    }

    // What an edge has put goes on its way to the peer, and is told, and then which wires it uses from now on or no more.
    fn tell(
        &mut self,
        way: Way,
        calls: &List<LinkCall>,
        before: &[bool],
        work: &mut AtLine,
    ) -> Result<(), NoMemory>
        requires me { way.from.0 < length self.old.row.plan.edges }
        requires peer { way.to.0 < length self.old.row.plan.edges }
        requires before { length before.now ≡ length self.old.row.plan.wires }
        ensures row { self.new.row ≡ self.old.row }
        ensures pipes { OnOk result (pipes_of self.new.pipes ≡ at_two way.from.0 way.to.0 (pipes_of self.old.pipes way.from.0 way.to.0 ++ bytes_of calls.now) (pipes_of self.old.pipes)) }
        ensures out { OnOk result (work.new.out ≡ (work.old.out ++ said_entries way.from.0 calls.now) ++ turned_all way.from.0 0 before.now (used_by self.old.row.plan way.from.0 (seen_row self.old.row way.from.0))) }
    {
        put_all(&mut self.pipes, way.from, way.to, calls.as_slice())?;
        say_all(work.alloc, way.from, calls.as_slice(), &mut work.out)?;
        self.tell_turned(way.from, before, &mut work.out)
    }

    // The wires that an edge uses otherwise than before are told, in the order of the plan.
    #[tactic(auto, using(crate::proofs::UsedLemmas::turned_steps))]
    fn tell_turned(
        &self,
        me: EdgeId,
        before: &[bool],
        out: &mut List<SwitchEntry>,
    ) -> Result<(), NoMemory>
        requires me { me.0 < length self.now.row.plan.edges }
        requires before { length before.now ≡ length self.now.row.plan.wires }
        ensures out { OnOk result (out.new ≡ out.old ++ turned_all me.0 0 before.now (used_by self.now.row.plan me.0 (seen_row self.now.row me.0))) }
    {
        for wire in 0..before.len() {
            let wire_id = WireId(wire as u16);
            tell_one(me, wire_id, before[wire], self.row.uses(me, wire_id), out)?;
        }
        Ok(())
    }
}

// A wire is told where it is used otherwise than before.
fn tell_one(
    me: EdgeId,
    wire: WireId,
    before: bool,
    now: bool,
    out: &mut List<SwitchEntry>,
) -> Result<(), NoMemory>
    ensures { OnOk result (out.new ≡ out.old ++ turned_switch me.0 wire.0 before now) }
{
    if before != now {
        out.push(SwitchEntry::Uses {
            edge: me,
            wire,
            on: now,
        })?;
    }
    Ok(())
}

// What was put is told.
#[tactic(auto, using(crate::proofs::UsedLemmas::said_steps))]
fn say_all(
    alloc: Global,
    me: EdgeId,
    calls: &[LinkCall],
    out: &mut List<SwitchEntry>,
) -> Result<(), NoMemory>
    ensures { OnOk result (out.new ≡ out.old ++ said_entries me.0 calls.now) }
{
    for place in 0..calls.len() {
        out.push(SwitchEntry::Said {
            edge: me,
            peer: calls[place].peer,
            octets: calls[place].bytes.copy(alloc)?,
        })?;
    }
    Ok(())
}
