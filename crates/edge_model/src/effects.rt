//! All that an edge gives out on one input.

use crate::Effect;
use net_base::List;

/// What an edge gives out on one input, in order.
#[derive(Debug, Drop)]
pub struct Effects {
    /// The input does not apply: nothing was given out, and nothing has changed.
    pub idle: bool,
    /// What was given out.
    pub list: List<Effect>,
}
