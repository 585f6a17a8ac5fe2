//! The words of an event: a scenario reads what a report writes.
#![tactic(auto)]

ghost use Rattle.event_laws.specs.Law.{ReadsWhatIsWritten};

/// The words that a report writes for an event, parted by one blank, are what a scenario reads as this event. It holds where
/// the plan's names are names and differ, list by list, and the event speaks of rows of the plan, with numbers in the ranges in
/// which a scenario writes them.
#[tactic(auto, using(crate::proofs::EventLemmas::reads))]
pub fn reads_what_is_written()
    ensures { ReadsWhatIsWritten }
{}
