//! A call of a link.

use net_base::EdgeId;

/// A call of a link as it comes: for whom it is, whether it sends a packet or puts octets of a session, and these octets.
#[derive(Clone, Copy, Drop)]
pub struct Call<'a> {
    pub peer: EdgeId,
    pub packet: bool,
    pub bytes: &'a [u8],
}
