//! Commands, done by a network: each makes its events, and the network does them in turn.
ghost use Rattle.std.specs.Prelude.{◌≡◌, ◌<◌, All, false, length};
ghost use Rattle.net_base.specs.plan.Planned.{IsFrame};
ghost use Rattle.psn_net.specs.{Lists.{network_seen}, Runs.{GivesNetwork, ran}};
ghost use Rattle.command_text.specs.Planned.{IsPlanned};
ghost use Rattle.command_run.specs.{Going.{IsRunGoing}, Made.{arrivals, captures_after, deliveries, frames_entering, made_by, ticks}};

use crate::left_captures::LeftCaptures;
use command_text::Command;
use net_base::{CircuitId, Event, List, Octets};
use psn_net::{NetStop, Network};
use std::alloc::Global;

/// Does the events of a command, one of the network's plan. A capture that it plays is left no longer. Where a limit stops an event, the
/// network is as the events before it left it; where memory was refused it is given up.
#[tactic(auto, using(psn_net::proofs::RunLemmas::ran_one, psn_net::proofs::RunLemmas::ran_none, crate::proofs::MadeLemmas::next_short, crate::proofs::GoingLemmas::applied_going))]
pub fn run_command(
    alloc: Global,
    network: &mut Network,
    captures: &mut LeftCaptures,
    command: Command,
) -> Result<(), NetStop>
    requires going { network.old.failed ≡ false }
    requires planned { IsPlanned network.old.plan command }
    requires frames { All (All IsFrame) captures.old }
    ensures plan { network.new.plan ≡ network.old.plan }
    ensures left { captures.new ≡ captures_after command captures.old }
    ensures going { IsRunGoing result network.new }
    ensures ran { GivesNetwork result network.new (ran network.old.plan (network_seen network.old) network.old.trace (made_by network.old.plan (network_seen network.old) captures.old command)) }
{
    match command {
        Command::One(Event::Frame { circuit, bytes }) => network.enter(alloc, circuit, bytes),
        Command::One(event) => network.apply(alloc, &event),
        Command::Settle(count) => run_deliveries(alloc, network, count),
        Command::Flow(count) => run_arrivals(alloc, network, count),
        Command::Ticks(count) => run_ticks(alloc, network, count),
        Command::Play(circuit, _) => {
            let frames = captures.take_next(alloc);
            run_frames(alloc, network, circuit, frames)
        }
    }
}

// Lets frames enter at a circuit, one after another.
#[tactic(auto, using(crate::proofs::MadeLemmas::entering_steps, psn_net::proofs::RunLemmas::ran_one, psn_net::proofs::RunLemmas::ran_none))]
fn run_frames(
    alloc: Global,
    network: &mut Network,
    circuit: CircuitId,
    frames: List<Octets>,
) -> Result<(), NetStop>
    requires going { network.old.failed ≡ false }
    requires circuit { circuit.0 < length network.old.plan.circuits }
    requires frames { All IsFrame frames }
    ensures plan { network.new.plan ≡ network.old.plan }
    ensures going { IsRunGoing result network.new }
    ensures ran { GivesNetwork result network.new (ran network.old.plan (network_seen network.old) network.old.trace (frames_entering circuit frames)) }
{
    for frame in frames.into_items() {
        match network.enter(alloc, circuit, frame) {
            Ok(()) => {}
            Err(stop) => return Err(stop),
        }
    }
    Ok(())
}

// Does the next delivery so many times, or until there is none.
#[tactic(auto, using(crate::proofs::MadeLemmas::delivery_steps))]
fn run_deliveries(alloc: Global, network: &mut Network, count: u32) -> Result<(), NetStop>
    requires going { network.old.failed ≡ false }
    ensures plan { network.new.plan ≡ network.old.plan }
    ensures going { IsRunGoing result network.new }
    ensures ran { GivesNetwork result network.new (ran network.old.plan (network_seen network.old) network.old.trace (deliveries network.old.plan count (network_seen network.old))) }
{
    for _turn in 0..count {
        match network.next_delivery() {
            Some(event) => network.apply(alloc, &event)?,
            None => return Ok(()),
        }
    }
    Ok(())
}

// Does the next arrival so many times, or until there is none.
#[tactic(auto, using(crate::proofs::MadeLemmas::arrival_steps))]
fn run_arrivals(alloc: Global, network: &mut Network, count: u32) -> Result<(), NetStop>
    requires going { network.old.failed ≡ false }
    ensures plan { network.new.plan ≡ network.old.plan }
    ensures going { IsRunGoing result network.new }
    ensures ran { GivesNetwork result network.new (ran network.old.plan (network_seen network.old) network.old.trace (arrivals network.old.plan count (network_seen network.old))) }
{
    for _arrival in 0..count {
        match network.next_arrival() {
            Some(event) => network.apply(alloc, &event)?,
            None => return Ok(()),
        }
    }
    Ok(())
}

// Does so many ticks.
#[tactic(auto, using(crate::proofs::MadeLemmas::ticks_end))]
fn run_ticks(alloc: Global, network: &mut Network, count: u32) -> Result<(), NetStop>
    requires going { network.old.failed ≡ false }
    ensures plan { network.new.plan ≡ network.old.plan }
    ensures going { IsRunGoing result network.new }
    ensures ran { GivesNetwork result network.new (ran network.old.plan (network_seen network.old) network.old.trace (ticks count)) }
{
    for _done in 0..count {
        network.apply(alloc, &Event::Tick)?;
    }
    Ok(())
}
