//! The network with its adjacencies.
ghost use Rattle.std.specs.Prelude.{◌≡◌, ◌∷◌, [], false, IfOk, OnOk};
ghost use Rattle.net_base.specs.plan.Accepted.{IsChecked};
ghost use Rattle.command_run.specs.Going.{IsRunGoing};
ghost use Rattle.command_text.specs.Planned.{IsPlanned};
ghost use Rattle.discovery_script.specs.Planned.{IsDiscoveryLineOf};
ghost use Rattle.discovery_net.specs.{Acts.{Tells}, Deeds.{Discovery, discovery_opened}, Lines.{acts_of, after_line}, Lists.{Acts, IsAt}};

mod connections;
mod hellos;
mod ticks;

use crate::said_hello::SaidHello;
use command_run::{LeftCaptures, run_command};
use command_text::Command;
use discovery_script::{Note, PlacedNote, ScriptLine};
use ldp_discovery::AdjacencyTable;
use net_base::{List, NoMemory, Plan};
use psn_net::{NetStop, Network};
use std::alloc::Global;
use std::marker::Model;

/// The network of a plan, the Hello adjacencies of its edges, the Hellos that were said, and what was told of them. Contracts see
/// lists; `IsAt` says what they stand for.
#[derive(Drop)]
pub struct DiscoveryNet {
    network: Network,
    adjacencies: AdjacencyTable,
    hellos: Vec<SaidHello>,
    notes: Vec<PlacedNote>,
}

impl Model for DiscoveryNet {
    ghost use Rattle.discovery_net.specs.Lists.{DiscoveryLists, IsDiscovery};

    ghost Value = { DiscoveryLists };

    ghost view = { λ n. record { network = n.network; adjacencies = n.adjacencies; hellos = n.hellos.items; notes = n.notes.items } };

    ghost invariant = { λ n. IsDiscovery (record { network = n.network; adjacencies = n.adjacencies; hellos = n.hellos.items; notes = n.notes.items }) };
}

impl DiscoveryNet {
    /// The network of a plan before the first line: no connection stands, and no adjacency lives.
    #[tactic(auto, using(crate::proofs::LineLemmas::at_first))]
    pub fn open(alloc: Global, plan: &Plan) -> Result<DiscoveryNet, NoMemory>
        requires { IsChecked plan.now }
        ensures plan { IfOk result (λ net. net.network.plan ≡ plan.now) }
        ensures going { IfOk result (λ net. net.network.failed ≡ false) }
        ensures trace { IfOk result (λ net. net.network.trace ≡ []) }
        ensures notes { IfOk result (λ net. net.notes ≡ []) }
        ensures first { IfOk result (λ net. IsAt (discovery_opened plan.now) net) }
    {
        let adjacencies = AdjacencyTable::open(alloc, plan)?;
        match Network::open(alloc, plan) {
            Ok(network) => Ok(DiscoveryNet {
                network,
                adjacencies,
                hellos: Vec::new(alloc),
                notes: Vec::new(alloc),
            }),
            Err(fault) => Err(fault),
        }
    }

    /// Does one line, which names places of the plan.
    ///
    /// `TooMuch` and `Crowded` where a limit of the network stops one of its events; what was done before that event stands. `NoMemory`
    /// where memory was refused; the network is then given up.
    pub fn apply_line(&mut self, alloc: Global, line: ScriptLine) -> Result<(), NetStop>
        requires planned { IsDiscoveryLineOf self.old.network.plan line }
        requires going { self.old.network.failed ≡ false }
        ensures plan { self.new.network.plan ≡ self.old.network.plan }
        ensures going { IsRunGoing result self.new.network }
        ensures acts { (d : Discovery) → IsAt d self.old → Acts result self.old self.new (acts_of self.old.network.plan d line) }
        ensures after { (d : Discovery) → IsAt d self.old → OnOk result (IsAt (after_line self.old.network.plan d line) self.new) }
    {
        match line {
            ScriptLine::Hello { from, to, hold } => self.send_hello(from, to, hold),
            ScriptLine::Bring { number } => self.bring(alloc, number),
            ScriptLine::Open { from, to } => self.open_connection(alloc, from, to),
            ScriptLine::Tick => self.tick(alloc),
            ScriptLine::Do(command) => self.command(alloc, command),
        }
    }

    // Does a command of the network.
    #[tactic(auto, using(crate::proofs::LineLemmas::kept_discovery, crate::proofs::LineLemmas::command_acts, crate::proofs::LineLemmas::command_after))]
    fn command(&mut self, alloc: Global, command: Command) -> Result<(), NetStop>
        requires planned { IsPlanned self.old.network.plan command }
        requires going { self.old.network.failed ≡ false }
        ensures plan { self.new.network.plan ≡ self.old.network.plan }
        ensures going { IsRunGoing result self.new.network }
        ensures acts { (d : Discovery) → IsAt d self.old → Acts result self.old self.new (acts_of self.old.network.plan d (ScriptLine.Do command)) }
        ensures after { (d : Discovery) → IsAt d self.old → OnOk result (IsAt (after_line self.old.network.plan d (ScriptLine.Do command)) self.new) }
    {
        let mut captures = LeftCaptures::of(List::new(alloc));
        run_command(alloc, &mut self.network, &mut captures, command)
    }

    // Tells something of adjacencies, behind the entries that were told so far.
    #[tactic(auto, using(crate::proofs::CourseLemmas::tells_one))]
    fn tell(&mut self, note: Note) -> Result<(), NetStop>
        requires going { self.old.network.failed ≡ false }
        ensures plan { self.new.network.plan ≡ self.old.network.plan }
        ensures going { IsRunGoing result self.new.network }
        ensures network { self.new.network ≡ self.old.network }
        ensures adjacencies { self.new.adjacencies ≡ self.old.adjacencies }
        ensures hellos { self.new.hellos ≡ self.old.hellos }
        ensures acts { Acts result self.old self.new (Tells note ∷ []) }
    {
        let entries = self.network.trace().len();
        match self.notes.push(PlacedNote { entries, note }) {
            Ok(()) => Ok(()),
            Err(_) => Err(NetStop::NoMemory),
        }
    }

    /// The network.
    pub fn network(&self) -> &Network
        ensures { result.now ≡ self.now.network }
    {
        &self.network
    }

    /// The network, when the script is over.
    pub fn into_network(self) -> Network
        ensures { result ≡ self.network }
    {
        self.network
    }

    /// What was told of adjacencies, in order.
    pub fn notes(&self) -> &[PlacedNote]
        ensures { result.now ≡ self.now.notes }
    {
        self.notes.as_slice()
    }
}
