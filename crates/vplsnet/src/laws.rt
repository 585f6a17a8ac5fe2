//! What the clauses of `run` say of two calls.
ghost use Rattle.vplsnet.specs.OneText.{OneInputOneText};

/// One input has one text: two calls of a command, whose reads agree with files of the same octets, which both end Done, or which a limit
/// stopped both, took the same text. It holds of each command but `migrate`, of whose text it is said that it is read as the scenario again.
#[tactic(auto, using(crate::proofs::OneTextLemmas::one_text))]
pub fn one_input_one_text()
    ensures { OneInputOneText }
{}
