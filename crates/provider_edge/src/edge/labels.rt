//! The labels of an edge.
ghost use Rattle.std.specs.{Prelude.{◌≡◌, ℕ, option_map}, List.{find}};
ghost use Rattle.label_space.specs.Labels.{owner_of};
ghost use Rattle.edge_model.specs.{EndPlaces.{end_places}, State.{end_at}};
ghost use Rattle.pw_ends.specs.{Ends.{owns_label}, Kept.{segment_of}};
ghost use Rattle.provider_edge.specs.Lists.{seen};

use crate::Edge;
use label_space::LabelSpace;

impl Edge {
    /// The labels that the edge gives, and whose they are (RFC 5036 section 3.5.7): the next number, for each label the segment and the
    /// side of the end that owns it, from its advertisement until the end is idle, and the numbers that may be given again: each waits for a
    /// new connection with the neighbour that it was given for, rests for 64 ticks, and is free then.
    #[tactic(auto, unfolding(crate::specs::Lists::seen))]
    pub fn labels(&self) -> &LabelSpace
        ensures next { result.now.next ≡ (seen self.now).next_label }
        ensures kept { result.now.kept ≡ (seen self.now).kept }
        ensures owners { (label : ℕ) → owner_of label result.now.owners ≡ option_map (λ place. (segment_of place, place.side)) (find (λ place. owns_label label (end_at (seen self.now) place)) (end_places self.now.plan self.now.me)) }
    {
        self.ends.labels()
    }
}
