//! What holds of every table.
ghost use Rattle.mac_table.specs.Laws.{LastsItsAge};

/// An address that was learned or renewed at a tick is held until as many ticks have passed as the age limit says, and is gone
/// from then on, where no more frames come from it (RFC 4762 section 9.1).
#[tactic(auto, using(crate::proofs::AgeLemmas::lasts_its_age))]
pub fn lasts_its_age()
    ensures { LastsItsAge }
{}
