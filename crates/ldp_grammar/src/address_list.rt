//! Lists of addresses.

use net_values::Octets;

/// The addresses of an Address List TLV (RFC 5036 section 3.4.3).
#[derive(Debug, Drop)]
pub struct AddressList {
    /// The address family number; 1 is IPv4.
    pub family: u16,
    /// The addresses in network order, one after another; of family 1 a multiple of 4 octets.
    pub octets: Octets,
}
