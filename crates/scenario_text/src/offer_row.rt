//! What a row of the table `wire` says of one end.

use crate::group_use::GroupUse;
use net_base::Text;

/// What one end of a wire offers, before the service is looked up.
#[derive(Clone, Copy)]
pub struct OfferRow {
    /// Tagged mode in place of raw mode.
    pub tagged: bool,
    pub cword: bool,
    /// None for the service's; 0 where it is not told.
    pub mtu: Option<u16>,
    pub vlan: Option<u16>,
    /// 0 where it is not told.
    pub vccv: u8,
    pub status: bool,
    pub group: GroupUse,
    pub description: Text<80>,
}
