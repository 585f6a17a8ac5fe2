//! What traces show, and what becomes of windows.
ghost use Rattle.seen_network.specs.Laws.{SeenOn, WindowsGoOn, WindowsTell};

/// Entries behind others show what they show behind what those showed, so that a trace can be read event by event as it comes.
#[tactic(auto, using(crate::proofs::ReadLemmas::in_parts))]
pub fn seen_on()
    ensures { SeenOn }
{}

/// The windows that one event more leaves open are those that a trace with this event has open, and those that it closes and that were
/// flooded are, with those before, those whose frames have to leave once at each site.
pub fn windows_go_on()
    ensures { WindowsGoOn }
{}

/// Each flooded frame of a calm service was seen exactly once where each frame that has to leave once at each site did; and else the
/// first of those that did not is the first that was not.
pub fn windows_tell()
    ensures { WindowsTell }
{}
