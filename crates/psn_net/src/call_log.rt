//! The calls that a link took. They exist in proofs alone.
ghost use Rattle.std.specs.{Prelude.{◌≡◌, ◌++◌, ◌∷◌, [], List, true}, Borrow.{ftrue}};
ghost use Rattle.net_base.specs.{declared.outside.link_call.LinkCall.{LinkCall}, outside.Link.{call_of}};

use crate::call::Call;
use std::marker::Model;

/// The calls that a link took, in order. It takes no memory, and its calls do nothing when they run.
#[derive(Drop)]
pub struct CallLog {
    pub ghost calls: { List LinkCall },
}

impl Model for CallLog {
    ghost also_owns = { λ _. ftrue };
}

impl CallLog {
    /// No call yet.
    pub fn new() -> CallLog
        ensures { result.calls ≡ [] }
    {
        CallLog {}
    }

    /// The same calls, and this one behind them.
    pub fn with_call(&self, _call: &Call<'_>) -> CallLog
        ensures { result.calls ≡ self.now.calls ++ call_of _call.now.peer _call.now.packet _call.now.bytes.now true ∷ [] }
    {
        CallLog {}
    }
}
