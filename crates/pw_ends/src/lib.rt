//! The pseudowire ends of one edge, their labels, and what they tell (RFC 8077 section 6, RFC 5036 section 3.5).
//!
//! `PwEnds` has the ends by slots, which are places in the list of the edge's ends by the plan. `seen_ends` of
//! `specs/Ends.antt` sees them as a map from wires and neighbours, and each call that changes ends says what it makes of that
//! map. What an end tells, and the messages that carry it, are pure functions.
#![tactic(auto)]

mod end_change;
mod end_slots;
mod owned_labels;
mod peer_marks;
mod place_list;
mod plan_places;
mod pw_ends;
mod role;
mod segment;
mod which_ends;

pub use end_change::EndChange;
pub use peer_marks::PeerMarks;
pub use pw_ends::PwEnds;
pub use role::role_of;
