//! The lines of a script.
ghost use Rattle.std.specs.Prelude.{◌≡◌, ◌<◌, ◌==◌, Some, true, false, length, take, IfOk, OnOk};
ghost use Rattle.independent_model.specs.Wires.{is_between, other_end};
ghost use Rattle.switchover_model.specs.Network.{switch_connecting, cutting, switch_delivers, does, done, is_line_idle, settling, some_between, SwitchState};
ghost use Rattle.switchover_model.specs.{Text.{deliver_entries, entries, line_entries, settle_entries}, Planned.{IsLineOf}};
ghost use Rattle.switchover_net.specs.Net.{IsReached, Makes, ShowsSwitchState, cut_entries, pair_entries};

use super::steps::{Setting, Way};
use crate::SwitchNet;
use crate::at_line::AtLine;
use crate::waiting::{first_pair, is_waiting};
use independent_mode::{joins_two, other_of_two};
use net_base::{EdgeId, List, NoMemory, WireId};
use std::alloc::Global;
use switchover_model::{SwitchEntry, SwitchLine};

/// The most octets that come at once where all are to come.
const MOST_AT_ONCE: u16 = 65535;

impl SwitchNet {
    /// Does a line of a script, and answers what it has made of the network. The line names edges and a wire of the plan. Where memory was
    /// refused the network is of no use any more.
    #[tactic(auto, using(crate::proofs::LineLemmas::line_steps))]
    pub fn line(&mut self, alloc: Global, line: SwitchLine) -> Result<List<SwitchEntry>, NoMemory>
        requires known { IsLineOf self.old.row.plan line }
        requires reached { IsReached self.old }
        ensures plan { self.new.row.plan ≡ self.old.row.plan }
        ensures reached { OnOk result (IsReached self.new) }
        ensures state { (x : SwitchState) → ShowsSwitchState self.old x → OnOk result (ShowsSwitchState self.new (done self.old.row.plan line x)) }
        ensures entries { (x : SwitchState) → ShowsSwitchState self.old x → IfOk result (λ out. out ≡ line_entries self.old.row.plan line x) }
    {
        let mut work = AtLine {
            alloc,
            out: List::new(alloc),
        };
        if self.is_idle(line) {
            work.out.push(SwitchEntry::Idle)?;
            return Ok(work.out);
        }
        self.apply(line, &mut work)?;
        Ok(work.out)
    }

    // Whether a line does not apply.
    #[tactic(auto, using(crate::proofs::LineLemmas::idle_steps))]
    fn is_idle(&self, line: SwitchLine) -> bool
        requires known { IsLineOf self.now.row.plan line }
        ensures { (x : SwitchState) → ShowsSwitchState self.now x → result ≡ is_line_idle self.now.row.plan x line }
    {
        match line {
            SwitchLine::Connect { edge, peer } => {
                !self.are_joined(edge, peer) || self.row.is_connected(edge, peer)
            }
            SwitchLine::Cut { edge, peer } => {
                !self.are_joined(edge, peer) || !self.row.is_connected(edge, peer)
            }
            SwitchLine::Deliver { from, to, .. } => {
                !is_waiting(&self.pipes, from.0 as usize, to.0 as usize)
            }
            SwitchLine::Settle { .. } => first_pair(&self.pipes).is_none(),
            SwitchLine::Set { edge, wire, wish } => {
                self.other_end(edge, wire).is_none() || self.row.calls_so(edge, wire, wish)
            }
        }
    }

    // Does a line that applies.
    #[tactic(auto, using(crate::proofs::LineLemmas::apply_steps))]
    fn apply(&mut self, line: SwitchLine, work: &mut AtLine) -> Result<(), NoMemory>
        requires known { IsLineOf self.old.row.plan line }
        requires reached { IsReached self.old }
        requires runs { (x : SwitchState) → ShowsSwitchState self.old x → is_line_idle self.old.row.plan x line ≡ false }
        ensures plan { self.new.row.plan ≡ self.old.row.plan }
        ensures step { OnOk result (Makes self.old self.new work.old.out work.new.out (does self.old.row.plan line) (entries self.old.row.plan line)) }
    {
        match line {
            SwitchLine::Connect { edge, peer } => self.connect(edge, peer, work),
            SwitchLine::Cut { edge, peer } => self.cut(edge, peer, work),
            SwitchLine::Deliver { from, to, count } => {
                self.deliver(Way { from, to }, count, work)
            }
            SwitchLine::Settle { count } => self.settle(count, work),
            SwitchLine::Set { edge, wire, wish } => match self.other_end(edge, wire) {
                Some(peer) => self.set(Setting { edge, wire, wish }, peer, work),
                None => unreachable!(),
            },
        }
    }

    // Both edges are connected.
    #[tactic(auto, using(crate::proofs::LineLemmas::both_connect))]
    fn connect(&mut self, a: EdgeId, b: EdgeId, work: &mut AtLine) -> Result<(), NoMemory>
        requires a { a.0 < length self.old.row.plan.edges }
        requires b { b.0 < length self.old.row.plan.edges }
        ensures plan { self.new.row.plan ≡ self.old.row.plan }
        ensures step { OnOk result (Makes self.old self.new work.old.out work.new.out (switch_connecting self.old.row.plan a.0 b.0) (pair_entries self.old.row.plan a.0 b.0)) }
    {
        self.connect_one(a, b, work)?;
        self.connect_one(b, a, work)
    }

    // Both edges lose the connection.
    #[tactic(auto, using(crate::proofs::LineLemmas::both_lose))]
    fn cut(&mut self, a: EdgeId, b: EdgeId, work: &mut AtLine) -> Result<(), NoMemory>
        requires a { a.0 < length self.old.row.plan.edges }
        requires b { b.0 < length self.old.row.plan.edges }
        requires apart { (b.0 == a.0) ≡ false }
        ensures plan { self.new.row.plan ≡ self.old.row.plan }
        ensures step { OnOk result (Makes self.old self.new work.old.out work.new.out (cutting self.old.row.plan a.0 b.0) (cut_entries self.old.row.plan a.0 b.0)) }
    {
        self.lose_one(a, b, work)?;
        self.lose_one(b, a, work)?;
        self.pipes.clear(b, a);
        self.pipes.clear(a, b);
        Ok(())
    }

    // The first octets on their way come, one by one.
    #[tactic(auto, using(crate::proofs::LineLemmas::delivered_steps))]
    fn deliver(&mut self, way: Way, count: u16, work: &mut AtLine) -> Result<(), NoMemory>
        requires from { way.from.0 < length self.old.row.plan.edges }
        requires to { way.to.0 < length self.old.row.plan.edges }
        requires reached { IsReached self.old }
        ensures plan { self.new.row.plan ≡ self.old.row.plan }
        ensures reached { OnOk result (IsReached self.new) }
        ensures step { OnOk result (Makes self.old self.new work.old.out work.new.out (λ x. switch_delivers self.old.row.plan way.from.0 way.to.0 (take count (x.pipes way.from.0 way.to.0)) x) (λ x. deliver_entries self.old.row.plan way.from.0 way.to.0 (take count (x.pipes way.from.0 way.to.0)) x)) }
    {
        let mut used = self.row.used(work.alloc, way.to)?;
        let most = self.pipes.front(way.from, way.to, count as usize).len();
        for _octet in 0..most {
            self.deliver_one(way, &mut used, work)?;
        }
        Ok(())
    }

    // So many times at most, all octets of the first pair come.
    #[tactic(auto, using(crate::proofs::LineLemmas::settled_steps))]
    fn settle(&mut self, count: u16, work: &mut AtLine) -> Result<(), NoMemory>
        requires reached { IsReached self.old }
        ensures plan { self.new.row.plan ≡ self.old.row.plan }
        ensures step { OnOk result (Makes self.old self.new work.old.out work.new.out (settling self.old.row.plan count) (settle_entries self.old.row.plan count)) }
    {
        for _time in 0..count {
            match first_pair(&self.pipes) {
                Some(pair) => {
                    let way = Way {
                        from: EdgeId(pair.0 as u16),
                        to: EdgeId(pair.1 as u16),
                    };
                    self.deliver(way, MOST_AT_ONCE, work)?
                }
                None => return Ok(()),
            }
        }
        Ok(())
    }

    // Whether some wire of two edges joins these.
    #[tactic(auto, using(crate::proofs::LineLemmas::joined_steps))]
    fn are_joined(&self, a: EdgeId, b: EdgeId) -> bool
        ensures { result ≡ some_between self.now.row.plan a.0 b.0 (length self.now.row.plan.wires) }
    {
        let count = self.row.plan().wires.len();
        for wire in 0..count {
            if self.is_joined_by(wire, a, b) {
                return true;
            }
        }
        false
    }

    // Whether a wire has two edges, and they are these.
    #[tactic(auto, unfolding(independent_model::specs::Wires::is_between))]
    fn is_joined_by(&self, wire: usize, a: EdgeId, b: EdgeId) -> bool
        requires { wire < length self.now.row.plan.wires }
        ensures { result ≡ is_between self.now.row.plan wire a.0 b.0 }
    {
        joins_two(self.row.plan().wires.as_slice()[wire].path.as_slice(), a, b)
    }

    // The edge at the other end of a wire of two edges.
    fn other_end(&self, edge: EdgeId, wire: WireId) -> Option<EdgeId>
        requires { wire.0 < length self.now.row.plan.wires }
        ensures { result ≡ other_end self.now.row.plan edge.0 wire.0 }
    {
        other_of_two(
            self.row.plan().wires.as_slice()[wire.0 as usize]
                .path
                .as_slice(),
            edge,
        )
    }
}
