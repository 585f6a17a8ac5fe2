//! What happens in a rehearsal.
ghost use Rattle.std.specs.Prelude.{◌≡◌, ◌<◌, ◌+◌, ◌++◌, IfOk, OnOk};
ghost use Rattle.rehearsal.specs.Commands.{commands, connect, connect_commands, probe_destination, frame, frames_from, probe_payload, station};
ghost use Rattle.rehearsal.specs.Draws.{next_number};

use crate::draws::Draws;
use net_base::{CircuitId, EdgeId, Event, List, NoMemory, Octets, WirePlan};
use scenario_text::Command;
use std::alloc::Global;

/// How many frames enter.
const FRAMES: u32 = 2000;

// The type of IPv4, and 46 octets.
const PAYLOAD: [u8; 48] = [
    8, 0, 0, 0, 0, 0, 0, 0, 0, 0, 0, 0, 0, 0, 0, 0, 0, 0, 0, 0, 0, 0, 0, 0, 0, 0, 0, 0, 0, 0, 0, 0,
    0, 0, 0, 0, 0, 0, 0, 0, 0, 0, 0, 0, 0, 0, 0, 0,
];

// Adds that the two ends of a wire connect.
fn add_connect(commands: &mut List<Command>, path: &[EdgeId]) -> Result<(), NoMemory>
    ensures { OnOk result (commands.new ≡ commands.old ++ connect path.now) }
{
    match path {
        [from, to] => commands.push(Command::One(Event::Connect {
            from: *from,
            to: *to,
        })),
        _ => Ok(()),
    }
}

// Adds that those of each wire do.
fn add_connects(commands: &mut List<Command>, wires: &[WirePlan]) -> Result<(), NoMemory>
    ensures { OnOk result (commands.new ≡ commands.old ++ connect_commands wires.now) }
{
    for wire in wires {
        add_connect(commands, wire.path.as_slice())?;
    }
    Ok(())
}

// The address of a station.
fn station(number: u8) -> [u8; 6]
    ensures { result ≡ station number }
{
    [2, 0, 0, 0, 0, number]
}

// The address to which a frame goes.
fn destination(number: u8) -> [u8; 6]
    ensures { result ≡ probe_destination number }
{
    if number == 0 {
        [255, 255, 255, 255, 255, 255]
    } else {
        station(number)
    }
}

// A frame from a station to another one, or to everybody.
#[tactic(auto, unfolding(crate::specs::Commands::frame, crate::specs::Commands::probe_payload))]
fn frame(alloc: Global, from: u8, to: u8) -> Result<Octets, NoMemory>
    ensures { IfOk result (λ octets. octets ≡ frame from to) }
{
    let mut octets = List::from_bytes(alloc, &destination(to))?;
    octets.extend_from_slice(&station(from))?;
    octets.extend_from_slice(&PAYLOAD)?;
    Ok(octets)
}

// Adds a frame that is drawn, and its way through the network.
fn add_frame(alloc: Global, commands: &mut List<Command>, draws: &mut Draws) -> Result<(), NoMemory>
    ensures frame { OnOk result (commands.new ≡ commands.old ++ frames_from 1 draws.old.number) }
    ensures draws { OnOk result (draws.new.number ≡ next_number (next_number draws.old.number)) }
{
    let site = draws.draw(16);
    let station = draws.draw(17);
    let bytes = frame(alloc, site as u8 + 1, station as u8)?;
    commands.push(Command::One(Event::Frame {
        circuit: CircuitId(site as u16),
        bytes,
    }))?;
    commands.push(Command::Flow(1000))
}

// Adds so many frames that are drawn.
fn add_frames(
    alloc: Global,
    commands: &mut List<Command>,
    count: u32,
    seed: u64,
) -> Result<(), NoMemory>
    ensures { OnOk result (commands.new ≡ commands.old ++ frames_from count seed) }
{
    let mut draws = Draws { number: seed };
    for _frame in 0..count {
        add_frame(alloc, commands, &mut draws)?;
    }
    Ok(())
}

/// The connections of these wires, all deliveries that they lead to, and the frames that this seed draws.
#[tactic(auto, unfolding(crate::specs::Commands::commands))]
pub fn commands(alloc: Global, wires: &[WirePlan], seed: u64) -> Result<List<Command>, NoMemory>
    ensures { IfOk result (λ made. made ≡ commands wires.now seed) }
{
    let mut commands = List::new(alloc);
    add_connects(&mut commands, wires)?;
    commands.push(Command::Settle(10000))?;
    add_frames(alloc, &mut commands, FRAMES, seed)?;
    Ok(commands)
}
