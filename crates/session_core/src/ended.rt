//! A session that ended.
ghost use Rattle.std.specs.Prelude.{◌≡◌};

use net_base::Reason;
use std::marker::Model;

/// A session that ended (RFC 5036 section 2.5.4). Nothing more is put to the peer. Contracts see why it ended.
#[derive(Drop)]
pub struct Ended {
    reason: Reason,
}

impl Model for Ended {
    ghost use Rattle.net_base.specs.declared.trace.state_name.Reason.{Reason};

    ghost Value = { Reason };

    ghost view = { λ e. e.reason };
}

impl Ended {
    // A session that ended for the reason.
    pub(crate) fn by(reason: Reason) -> Ended
        ensures { result ≡ reason }
    {
        Ended { reason }
    }

    /// Why it ended.
    pub fn reason(&self) -> Reason
        ensures { result ≡ self.now }
    {
        self.reason
    }
}
