//! The windows of a frame.

use net_base::List;
use seen_network::Window;

/// The windows of a frame that were open.
#[derive(Drop)]
pub struct Taken {
    pub first: Option<Window>,
    /// Those behind the first one, where the report gives its number to several frames.
    pub others: List<Window>,
}
