//! One end of a pseudowire, as far as it is signalled: what it has told its peer, and what the peer has told it
//! (RFC 8077 section 6, RFC 5036 sections 3.5.7, 3.5.10 and 3.5.11).
//!
//! Each state of the local part is a type, and a call that moves an end takes its state and gives the next one. A `PwEnd` is
//! an end of any state, with the calls for what comes from the peer. `specs/Rows.antt` has one definition a call, and
//! `specs/Down.antt` says why an end does not forward.
#![tactic(auto)]

mod binding;
mod cause;
mod end_role;
mod laws;
mod pw_advertised;
mod pw_end;
mod pw_idle;
mod pw_withdrawing;
mod told;

pub use binding::Binding;
pub use end_role::EndRole;
pub use laws::{
    forwards_where_both_agree, heeds_no_standby, holds_the_last_mapping, keeps_its_label,
    keeps_its_mark,
};
pub use pw_advertised::PwAdvertised;
pub use pw_end::PwEnd;
pub use pw_idle::PwIdle;
pub use pw_withdrawing::PwWithdrawing;
pub use told::Told;
