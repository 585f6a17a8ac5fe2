//! Hellos are said, and heard some time later.
ghost use Rattle.std.specs.Prelude.{◌≡◌, ◌<◌, Some, true, false, option_map, IfSome, OnOk};
ghost use Rattle.net_base.specs.plan.Paths.{are_joined};
ghost use Rattle.command_run.specs.Going.{IsRunGoing};
ghost use Rattle.discovery_script.specs.Planned.{AreOfPlan};
ghost use Rattle.discovery_net.specs.{Deeds.{Discovery, Hello, hello_numbered}, Lines.{acts_of, after_line, bring_acts, heard_at}};
ghost use Rattle.discovery_net.specs.Lists.{Acts, IsAt, IsHelloFit, IsOfPlan, said_hello};

use crate::discovery_net::DiscoveryNet;
use crate::said_hello::SaidHello;
use discovery_script::{Note, ScriptLine};
use net_base::{EdgeId, NoMemory};
use psn_net::NetStop;
use std::alloc::Global;

impl DiscoveryNet {
    // An edge sends a Hello to another one, where a segment joins them.
    #[tactic(auto, using(crate::proofs::LineLemmas::hello_idle_acts, crate::proofs::LineLemmas::hello_idle_after))]
    pub(crate) fn send_hello(&mut self, from: EdgeId, to: EdgeId, hold: u16) -> Result<(), NetStop>
        requires planned { AreOfPlan self.old.network.plan from to }
        requires going { self.old.network.failed ≡ false }
        ensures plan { self.new.network.plan ≡ self.old.network.plan }
        ensures going { IsRunGoing result self.new.network }
        ensures acts { (d : Discovery) → IsAt d self.old → Acts result self.old self.new (acts_of self.old.network.plan d (ScriptLine.Hello from to hold)) }
        ensures after { (d : Discovery) → IsAt d self.old → OnOk result (IsAt (after_line self.old.network.plan d (ScriptLine.Hello from to hold)) self.new) }
    {
        if self.are_joined(from, to) {
            self.send_to_neighbour(from, to, hold)
        } else {
            self.tell(Note::Idle)
        }
    }

    // The same where a segment joins them.
    #[tactic(auto, using(crate::proofs::LineLemmas::said_discovery, crate::proofs::LineLemmas::has_said, crate::proofs::LineLemmas::hello_said_acts, crate::proofs::LineLemmas::hello_said_after, crate::proofs::LineLemmas::halted_anyhow))]
    fn send_to_neighbour(&mut self, from: EdgeId, to: EdgeId, hold: u16) -> Result<(), NetStop>
        requires planned { AreOfPlan self.old.network.plan from to }
        requires joined { are_joined self.old.network.plan from.0 to.0 ≡ true }
        requires going { self.old.network.failed ≡ false }
        ensures plan { self.new.network.plan ≡ self.old.network.plan }
        ensures going { IsRunGoing result self.new.network }
        ensures acts { (d : Discovery) → IsAt d self.old → Acts result self.old self.new (acts_of self.old.network.plan d (ScriptLine.Hello from to hold)) }
        ensures after { (d : Discovery) → IsAt d self.old → OnOk result (IsAt (after_line self.old.network.plan d (ScriptLine.Hello from to hold)) self.new) }
    {
        let bytes = self.adjacencies.say(from, to, hold);
        match self.hellos.push(SaidHello { from, to, bytes }) {
            Ok(()) => {
                let number = self.hellos.len() as u64;
                self.tell(Note::Hello {
                    number,
                    from,
                    to,
                    bytes,
                })
            }
            Err(_) => Err(NetStop::NoMemory),
        }
    }

    // The Hello of a number, counted from 1.
    #[tactic(auto, using(crate::proofs::LineLemmas::hello_none, crate::proofs::LineLemmas::hello_found))]
    fn hello_of(&self, number: u64) -> Option<SaidHello>
        ensures hello { (d : Discovery) → IsAt d self.now → result ≡ option_map (said_hello self.now.network.plan) (hello_numbered d number) }
        ensures planned { IfSome result (IsOfPlan self.now.network.plan) }
    {
        if number == 0 {
            return None;
        }
        match self.hellos.get((number - 1) as usize) {
            Some(hello) => Some(*hello),
            None => None,
        }
    }

    // A Hello is heard where it was said to.
    #[tactic(auto, using(crate::proofs::LineLemmas::bring_none_acts, crate::proofs::LineLemmas::bring_none_after, crate::proofs::LineLemmas::bring_acts_of, crate::proofs::LineLemmas::bring_after_of))]
    pub(crate) fn bring(&mut self, alloc: Global, number: u64) -> Result<(), NetStop>
        requires going { self.old.network.failed ≡ false }
        ensures plan { self.new.network.plan ≡ self.old.network.plan }
        ensures going { IsRunGoing result self.new.network }
        ensures acts { (d : Discovery) → IsAt d self.old → Acts result self.old self.new (acts_of self.old.network.plan d (ScriptLine.Bring number)) }
        ensures after { (d : Discovery) → IsAt d self.old → OnOk result (IsAt (after_line self.old.network.plan d (ScriptLine.Bring number)) self.new) }
    {
        match self.hello_of(number) {
            None => self.tell(Note::Idle),
            Some(hello) => self.hear(alloc, hello),
        }
    }

    // The same of a Hello that was said.
    #[tactic(auto, using(crate::proofs::LineLemmas::heard_acts, crate::proofs::LineLemmas::heard_lived, crate::proofs::LineLemmas::heard_at_is, crate::proofs::LineLemmas::at_heard))]
    fn hear(&mut self, alloc: Global, hello: SaidHello) -> Result<(), NetStop>
        requires planned { IsOfPlan self.old.network.plan hello }
        requires going { self.old.network.failed ≡ false }
        ensures plan { self.new.network.plan ≡ self.old.network.plan }
        ensures going { IsRunGoing result self.new.network }
        ensures acts { (d : Discovery) (said : Hello) → IsAt d self.old → IsHelloFit said → hello ≡ said_hello self.old.network.plan said → Acts result self.old self.new (bring_acts d (Some said)) }
        ensures after { (d : Discovery) (said : Hello) → IsAt d self.old → IsHelloFit said → hello ≡ said_hello self.old.network.plan said → OnOk result (IsAt (record d { histories = heard_at (Some said) d.histories }) self.new) }
    {
        let lived = self.lives(hello.to, hello.from);
        match self
            .adjacencies
            .hear(alloc, hello.to, hello.from, &hello.bytes)
        {
            Ok(()) => {}
            Err(NoMemory) => return Err(NetStop::NoMemory),
        }
        if lived {
            return Ok(());
        }
        self.tell(Note::Up {
            edge: hello.to,
            peer: hello.from,
        })
    }
}
