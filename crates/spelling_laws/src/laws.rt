//! What is said in every run of the network.
ghost use Rattle.spelling_laws.specs.Laws.{RunsSpellPdus};

/// Whatever an edge says to a neighbour in a run is one whole PDU, of its own router with label space 0, with one message, and nothing stands
/// behind it: so a stream of these octets is read as this one message (RFC 5036 sections 3.1 and 3.5).
#[tactic(auto, using(crate::proofs::RunLemmas::runs_spell_pdus))]
pub fn runs_spell_pdus()
    ensures { RunsSpellPdus }
{}
