//! The states of a session that stands, as types.
ghost use Rattle.std.specs.Prelude.{◌≡◌};
ghost use Rattle.session_core.specs.{Phase.{Phase, is_agreed}, Session.{view_of}, State.{IsKept, Stands, in_phase}};

use crate::{Session, Standing};

/// A state of a session that stands.
pub trait Stage: Drop {
    /// The state as contracts name it.
    ghost phase: { Phase };
}

/// A state that a session of any state may be in.
pub trait Case: Stage + Sized {
    /// The session of this state that has this, among those of any state.
    fn session(standing: Standing) -> Session
        requires { IsKept Self.phase standing }
        ensures { view_of result ≡ Stands (in_phase Self.phase standing) };

    /// Whether an Initialization was accepted (RFC 5036 section 2.5.4).
    fn is_agreed() -> bool
        ensures { result ≡ is_agreed Self.phase };
}
