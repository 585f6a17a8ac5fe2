//! One provider edge as definitions: what it holds, what it takes, and what it makes of it. This crate runs nothing: the
//! types have what an edge is given and gives out, the definitions stand in `specs/`, and each function of `laws` has an
//! empty body and a law as its contract.
#![tactic(auto)]

mod effect;
mod effects;
mod end_place;
mod input;
mod laws;

pub use effect::Effect;
pub use effects::Effects;
pub use end_place::EndPlace;
pub use input::Input;
pub use laws::{
    addresses_last_their_age, echoes_stay_apart, end_places_rise, frames_stay_local,
    heard_in_parts, mends_at_once, minds_own_releases, packets_stay_local, pings_stay_local,
    restarts_keep_settings, spokes_alone_stand_by, withdrawals_go_on,
};
