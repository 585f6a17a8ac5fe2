//! What takes addresses out of a table.
ghost use Rattle.std.specs.Prelude.{◌≡◌};
ghost use Rattle.mac_table.specs.Removal.{keeps_entry};

use crate::MacEntry;
use crate::search::is_in;
use net_values::Mac;

// What takes addresses out of a table: that they have aged out, a port that no longer has addresses, or a MAC withdraw.
#[derive(Clone, Copy)]
pub(crate) enum Removal<'a> {
    // The addresses from which no frame came since this tick.
    Before { since: u64 },
    // The addresses that are at the port.
    Port { port: u16 },
    // What a MAC withdraw that came by the port `from` names.
    Withdraw { from: u16, addresses: &'a [Mac] },
}

impl Removal<'_> {
    // Whether the entry stays.
    pub(crate) fn keeps(self, entry: &MacEntry) -> bool
        ensures { result ≡ keeps_entry self.entry entry.now }
    {
        match self {
            Removal::Before { since } => since <= entry.tick,
            Removal::Port { port } => entry.port != port,
            Removal::Withdraw { from, addresses } if addresses.is_empty() => entry.port == from,
            Removal::Withdraw { from, addresses } => {
                !(entry.port == from && is_in(addresses, entry))
            }
        }
    }
}
