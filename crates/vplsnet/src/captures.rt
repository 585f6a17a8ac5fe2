//! The captures that a scenario plays.
ghost use Rattle.std.specs.Prelude.{◌≡◌, ◌≢◌, All, IfErr, IfOk, OnOk};
ghost use Rattle.net_base.specs.{outside.Outside.{NeverFall}, plan.Planned.{IsFrame}};
ghost use Rattle.vplsnet.specs.Captures.{FailsToPlay, GainsPlayed, HasFrames, HasPlayed, IsNoCapture, IsToldAs};
ghost use Rattle.vplsnet.specs.{Around.{gained}, Inputs.{capture_limit, played, played_by}, Reads.{GainsReads, IsPlayedRead, IsReadOf}};

use crate::named_file::octets_of;
use crate::outcome::Outcome;
use net_base::{List, NoMemory, Octets, Shelf, Word};
use pcap_file::{CaptureFault, read_capture};
use scenario_text::Command;
use std::alloc::Global;

/// The most octets of a capture.
const CAPTURE_LIMIT: usize = 67_108_864;

/// The frames of each capture that the commands play, in their order; or the outcome of the first file whose frames were not had. A
/// file that is played twice is read twice.
#[tactic(auto, using(crate::proofs::CaptureLemmas::play_steps, crate::proofs::ReadLemmas::played_on, crate::proofs::ReadLemmas::reads_none))]
pub fn captures_of<F: Shelf>(
    alloc: Global,
    shelf: &mut F,
    commands: &[Command],
) -> Result<List<List<Octets>>, Outcome>
    ensures played { IfOk result (HasPlayed (gained (F.reads shelf.old) (F.reads shelf.new)) (played commands.now)) }
    ensures frames { IfOk result (All (All IsFrame)) }
    ensures fails { IfErr result (FailsToPlay (gained (F.reads shelf.old) (F.reads shelf.new)) (F.faults shelf.old) (F.faults shelf.new) (played commands.now)) }
    ensures reads { GainsReads (IsPlayedRead (gained (F.reads shelf.old) (F.reads shelf.new)) (played commands.now)) (F.reads shelf.old) (F.reads shelf.new) }
    ensures never_fall { NeverFall (F.faults shelf.old) (F.faults shelf.new) }
{
    let mut captures = List::new(alloc);
    for command in commands {
        match add_played(alloc, shelf, command, &mut captures) {
            Ok(()) => {}
            Err(outcome) => return Err(outcome),
        }
    }
    Ok(captures)
}

// Adds the frames of the capture that a command plays, where it plays one.
#[tactic(auto, using(crate::proofs::CaptureLemmas::gains_none, crate::proofs::CaptureLemmas::add_steps, crate::proofs::ReadLemmas::played_steps))]
fn add_played<F: Shelf>(
    alloc: Global,
    shelf: &mut F,
    command: &Command,
    captures: &mut List<List<Octets>>,
) -> Result<(), Outcome>
    ensures gains { OnOk result (GainsPlayed (gained (F.reads shelf.old) (F.reads shelf.new)) (played_by command.now) captures.old captures.new) }
    ensures fails { IfErr result (FailsToPlay (gained (F.reads shelf.old) (F.reads shelf.new)) (F.faults shelf.old) (F.faults shelf.new) (played_by command.now)) }
    ensures reads { GainsReads (IsPlayedRead (gained (F.reads shelf.old) (F.reads shelf.new)) (played_by command.now)) (F.reads shelf.old) (F.reads shelf.new) }
    ensures never_fall { NeverFall (F.faults shelf.old) (F.faults shelf.new) }
{
    let file = match command {
        Command::Play(_, file) => file.as_str(),
        Command::One(_) | Command::Settle(_) | Command::Flow(_) | Command::Ticks(_) => {
            return Ok(());
        }
    };
    let frames = match frames_of(alloc, shelf, file) {
        Ok(frames) => frames,
        Err(outcome) => return Err(outcome),
    };
    match captures.push(frames) {
        Ok(()) => Ok(()),
        Err(NoMemory) => Err(Outcome::NoMemory),
    }
}

// The frames of a capture, or the outcome of why they were not had.
#[tactic(auto, using(crate::proofs::CaptureLemmas::frame_steps, crate::proofs::CaptureLemmas::told_first, crate::proofs::CaptureLemmas::short_frames))]
fn frames_of<F: Shelf>(alloc: Global, shelf: &mut F, file: &str) -> Result<List<Octets>, Outcome>
    ensures has { IfOk result (HasFrames (gained (F.reads shelf.old) (F.reads shelf.new)) file.now) }
    ensures frames { IfOk result (All IsFrame) }
    ensures not_had { IfErr result (IsNoCapture (gained (F.reads shelf.old) (F.reads shelf.new)) (F.faults shelf.old) (F.faults shelf.new) file.now) }
    ensures reads { GainsReads (IsReadOf (record { name = file.now; limit = capture_limit })) (F.reads shelf.old) (F.reads shelf.new) }
    ensures never_fall { NeverFall (F.faults shelf.old) (F.faults shelf.new) }
{
    let octets = match octets_of(alloc, shelf, file, CAPTURE_LIMIT) {
        Ok(octets) => octets,
        Err(outcome) => return Err(outcome),
    };
    match read_capture(alloc, octets.as_slice()) {
        Ok(frames) => Ok(frames),
        Err(CaptureFault::NoMemory) => Err(Outcome::NoMemory),
        Err(fault) => Err(refused(alloc, file, fault)),
    }
}

// The outcome of a fault of the file of this name. The name takes memory. Apart, since the lemmas of `frames_of` rest on its clause.
fn refused(alloc: Global, file: &str, fault: CaptureFault) -> Outcome
    requires { fault ≢ CaptureFault.NoMemory }
    ensures { IsToldAs (λ told. told ≡ fault) file.now result }
{
    match Word::new(alloc, file) {
        Ok(name) => Outcome::CaptureRefused(name, fault),
        Err(NoMemory) => Outcome::NoMemory,
    }
}
