//! What is known of a report behind the lines that were read.
ghost use Rattle.std.specs.Prelude.{◌≡◌, true, ◌<◌, ◌+◌, ◌++◌, ◌^◌, List, IfOk, OnOk, option_map};
ghost use Rattle.net_base.specs.{plan.Places.{is_mesh_wire}, trace.Split.{is_inside, is_switching_point}};
ghost use Rattle.trace_audit.specs.Judged.{Judged, KnowsJudged, begun, came_after, entered_at, first_line, has_one, is_crossing, is_stray, judges};
ghost use Rattle.trace_audit.specs.{Arrivals.{Entered, TellsArrivals, parts_of}, Heard.{broken_at}};

use crate::AuditStop;
use crate::arrivals::Arrivals;
use crate::entered_frame::{FrameParts, joined};
use eth_encap::inner_at;
use net_base::{Arrival, CircuitId, Class, EdgeId, Entry, NoMemory, Plan, WireId};
use std::alloc::Global;

/// What is known of a report behind the lines that were read.
#[derive(Drop)]
pub struct PathAudit {
    /// How many lines were read.
    pub line: u64,
    /// The frames that entered.
    pub came: Arrivals,
    /// The first line of a frame that left as none that had entered.
    pub stray: Option<u64>,
    /// The first line of a packet that went from one mesh wire to another one.
    pub crossed: Option<u64>,
}

// A frame of a circuit as it is known in its service; `None` where the circuit is none of the plan, or the frame has a fault.
fn came_at<'a>(
    plan: &Plan,
    circuit: CircuitId,
    number: u64,
    octets: &'a [u8],
) -> Option<FrameParts<'a>>
    ensures { option_map parts_of result ≡ entered_at plan.now circuit number octets.now }
{
    let Some(row) = plan.circuits.get(circuit.0 as usize) else {
        return None;
    };
    match inner_at(plan, circuit, octets) {
        Some(Ok((front, back))) => Some(FrameParts {
            number,
            service: row.service.0,
            front,
            back,
        }),
        Some(Err(_)) => None,
        None => None,
    }
}

// Whether a frame that leaves, where there is one, entered before.
fn has_come_in(
    alloc: Global,
    came: &Arrivals,
    frame: Option<FrameParts<'_>>,
) -> Result<bool, NoMemory>
    ensures { (known : List Entered) → TellsArrivals came.now known → IfOk result (λ come. come ≡ has_one known (option_map parts_of frame.entry)) }
{
    let Some(frame) = frame else {
        return Ok(false);
    };
    if came.shows(frame) {
        return Ok(true);
    }
    match joined(alloc, frame) {
        Ok(frame) => Ok(came.has(&frame)),
        Err(NoMemory) => Err(NoMemory),
    }
}

// Whether an entry tells of a frame that left as none that had entered.
fn is_stray_entry(
    alloc: Global,
    plan: &Plan,
    came: &Arrivals,
    entry: &Entry,
) -> Result<bool, NoMemory>
    ensures { (known : List Entered) → TellsArrivals came.now known → IfOk result (λ strays. strays ≡ is_stray plan.now known entry.now) }
{
    match *entry {
        Entry::Left {
            circuit,
            origin,
            ref bytes,
            ..
        } => {
            let frame = came_at(plan, circuit, origin, bytes.as_slice());
            match has_come_in(alloc, came, frame) {
                Ok(come) => Ok(!come),
                Err(NoMemory) => Err(NoMemory),
            }
        }
        _ => Ok(false),
    }
}

// Keeps the frame of an entry, where it tells of one that entered.
fn keep_entry(
    alloc: Global,
    plan: &Plan,
    came: &mut Arrivals,
    entry: &Entry,
) -> Result<(), NoMemory>
    ensures { OnOk result ((known : List Entered) → TellsArrivals came.old known → TellsArrivals came.new (came_after plan.now entry.now known)) }
{
    match *entry {
        Entry::In {
            circuit,
            number,
            ref bytes,
        } => match came_at(plan, circuit, number, bytes.as_slice()) {
            Some(frame) => came.add(alloc, frame),
            None => Ok(()),
        },
        _ => Ok(()),
    }
}

// Whether a wire is a mesh wire.
fn is_mesh(plan: &Plan, wire: WireId) -> bool
    ensures { result ≡ is_mesh_wire plan.now wire }
{
    match plan.wires.get(wire.0 as usize) {
        Some(row) => match row.class {
            Class::Mesh => true,
            Class::Spoke => false,
        },
        None => false,
    }
}

// Whether an edge stands on a path between its ends.
#[tactic(auto, using(crate::proofs::JudgeLemmas::none_inside))]
fn stands_inside(edge: EdgeId, path: &[EdgeId]) -> bool
    ensures { result ≡ is_inside edge path.now }
{
    let mut at = 1;
    'walking: while at + 1 < path.len() {
        if path[at].0 == edge.0 {
            return true;
        }
        at += 1;
    }
    false
}

// Whether an edge is a switching point of a wire.
fn is_switching(plan: &Plan, edge: EdgeId, wire: WireId) -> bool
    ensures { result ≡ is_switching_point plan.now edge wire }
{
    match plan.wires.get(wire.0 as usize) {
        Some(row) => stands_inside(edge, row.path.as_slice()),
        None => false,
    }
}

// Whether an entry tells of a packet that went from one mesh wire to another one.
fn is_crossing_entry(plan: &Plan, entry: &Entry) -> bool
    ensures { result ≡ is_crossing plan.now entry.now }
{
    match *entry {
        Entry::Sent {
            from,
            wire,
            arrival: Arrival::Wire(came),
            ..
        } => {
            is_mesh(plan, wire)
                && is_mesh(plan, came)
                && !(came.0 == wire.0 && is_switching(plan, from, wire))
        }
        _ => false,
    }
}

impl PathAudit {
    /// What is known behind the line that names the format.
    pub fn new(alloc: Global) -> PathAudit
        ensures { KnowsJudged result begun }
    {
        PathAudit {
            line: 1,
            came: Arrivals::new(alloc),
            stray: None,
            crossed: None,
        }
    }

    // The first line of a frame that left as none that had entered. Behind it none is sought.
    fn stray_line(
        &self,
        alloc: Global,
        plan: &Plan,
        entry: &Entry,
        here: u64,
    ) -> Result<Option<u64>, NoMemory>
        ensures { (known : List Entered) → TellsArrivals self.now.came known → IfOk result (λ first. first ≡ first_line self.now.stray (is_stray plan.now known entry.now) here) }
    {
        match self.stray {
            Some(line) => Ok(Some(line)),
            None => match is_stray_entry(alloc, plan, &self.came, entry) {
                Ok(true) => Ok(Some(here)),
                Ok(false) => Ok(None),
                Err(NoMemory) => Err(NoMemory),
            },
        }
    }

    // The first line of a packet that went from one mesh wire to another one.
    fn crossed_line(&self, plan: &Plan, entry: &Entry, here: u64) -> Option<u64>
        ensures { result ≡ first_line self.now.crossed (is_crossing plan.now entry.now) here }
    {
        match self.crossed {
            Some(line) => Some(line),
            None => {
                if is_crossing_entry(plan, entry) {
                    Some(here)
                } else {
                    None
                }
            }
        }
    }

    /// The first of the rules of paths that fails, at its first line.
    pub fn first_broken(&self) -> Option<AuditStop>
        ensures { result ≡ broken_at self.now.stray self.now.crossed }
    {
        match self.stray {
            Some(line) => Some(AuditStop::Isolated { line }),
            None => match self.crossed {
                Some(line) => Some(AuditStop::Split { line }),
                None => None,
            },
        }
    }

    /// Judges an entry more.
    #[tactic(auto, unfolding(crate::specs::Judged::judges))]
    pub fn hear(&mut self, alloc: Global, plan: &Plan, entry: &Entry) -> Result<(), NoMemory>
        requires { self.old.line < 2 ^ 63 }
        ensures judged { OnOk result ((known : Judged) → KnowsJudged self.old known → KnowsJudged self.new (judges plan.now entry.now known)) }
        ensures line { OnOk result (self.new.line ≡ self.old.line + 1) }
    {
        let here = self.line + 1;
        let stray = self.stray_line(alloc, plan, entry, here)?;
        keep_entry(alloc, plan, &mut self.came, entry)?;
        self.stray = stray;
        self.crossed = self.crossed_line(plan, entry, here);
        self.line = here;
        Ok(())
    }
}
