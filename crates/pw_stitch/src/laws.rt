//! What holds of every switching point.
ghost use Rattle.pw_stitch.specs.Laws.{BreaksLoops, CarriesBothWays, ChangesLabelAlone};

/// Whatever a switching point has told it does not accept again, whatever switching points it has passed since (RFC 6073 section
/// 7.6).
#[tactic(auto, using(crate::proofs::LawLemmas::breaks_loops))]
pub fn breaks_loops()
    ensures { BreaksLoops }
{}

/// Where both sides advertise a label and are bound, a packet that comes by one of them, and whose TTL does not run out, goes on by
/// the other, under the label that is bound there (RFC 6073 section 4).
#[tactic(auto, using(crate::proofs::LawLemmas::carries_both_ways))]
pub fn carries_both_ways()
    ensures { CarriesBothWays }
{}

/// A packet under another label has that label and that TTL, and the same traffic class and bottom bit, with the same behind
/// them (RFC 3032 section 2.1).
#[tactic(auto, using(crate::proofs::LawLemmas::changes_label_alone))]
pub fn changes_label_alone()
    ensures { ChangesLabelAlone }
{}
