//! Frames that entered.
ghost use Rattle.std.specs.Prelude.{◌≡◌, IfOk};
ghost use Rattle.trace_audit.specs.Arrivals.{entered_of, parts_of};

use net_base::NoMemory;
use std::alloc::Global;

/// A frame that entered or left: its number, the service of the circuit, and the frame without the circuit's tag.
#[derive(PartialEq, Eq, PartialOrd, Ord, Drop)]
pub struct EnteredFrame {
    pub number: u64,
    pub service: u16,
    pub frame: Vec<u8>,
}

/// A frame that entered or left, in two parts, without the circuit's tag: its number, and the service of the circuit.
#[derive(Clone, Copy)]
pub struct FrameParts<'a> {
    pub number: u64,
    pub service: u16,
    pub front: &'a [u8],
    pub back: &'a [u8],
}

/// The frame in one piece.
pub(crate) fn joined(alloc: Global, frame: FrameParts<'_>) -> Result<EnteredFrame, NoMemory>
    ensures { IfOk result (λ came. entered_of came ≡ parts_of frame.entry) }
{
    let FrameParts {
        number,
        service,
        front,
        back,
    } = frame;
    let mut frame = Vec::with_capacity(alloc, front.len() + back.len())?;
    frame.extend_from_slice(front)?;
    frame.extend_from_slice(back)?;
    Ok(EnteredFrame {
        number,
        service,
        frame,
    })
}
