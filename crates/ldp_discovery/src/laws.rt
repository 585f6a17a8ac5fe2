//! Laws of adjacencies. These functions do nothing when they run; their contracts are the laws.
ghost use Rattle.ldp_discovery.specs.{Adjacencies.{DeedsAreKept}, Hellos.{HellosAreHeard}, Live.{StandsForHistory}};

/// What is kept of a peer stands for all that was said, heard and ticked.
#[tactic(auto, using(crate::proofs::LiveLemmas::stands))]
pub fn stands_for_history()
    ensures { StandsForHistory }
{}

/// Adjacencies that are what an edge's deeds have left are so behind one deed more.
pub fn deeds_are_kept()
    ensures { DeedsAreKept }
{}

/// The Hello that an edge says is heard as one of this edge, with its hold time.
pub fn hellos_are_heard()
    ensures { HellosAreHeard }
{}
