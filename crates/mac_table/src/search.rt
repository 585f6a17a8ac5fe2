//! Where an address stands among entries.
ghost use Rattle.std.specs.Prelude.{◌≡◌};
ghost use Rattle.mac_table.specs.{Addresses.{is_of, entry_place, is_listed}, Index.{IsAddressIndex}};

use crate::MacEntry;
use indexmap::IndexMap;
use net_values::Mac;

// Whether the entry is of the address.
fn is_entry_of(address: Mac, entry: &MacEntry) -> bool
    ensures { result ≡ is_of address entry.now }
{
    entry.address == address
}

// The place of the address, or the number of entries where it is not held, by a walk.
fn walk_to_place(entries: &[MacEntry], address: Mac) -> usize
    ensures place { result ≡ entry_place entries.now address }
{
    for (i, entry) in entries.iter().enumerate() {
        if is_entry_of(address, entry) {
            return i;
        }
    }
    entries.len()
}

// The place of the address, or the number of entries where it is not held.
#[tactic(auto, using(crate::proofs::IndexLemmas::index_whole))]
pub(crate) fn place_of(
    entries: &[MacEntry],
    index: &IndexMap<Mac, (u16, u64)>,
    address: Mac,
) -> usize
    requires { IsAddressIndex index.now.entries entries.now }
    ensures { result ≡ entry_place entries.now address }
{
    if index.len() == entries.len() {
        return match index.get_index_of(&address) {
            Some(place) => place,
            None => entries.len(),
        };
    }
    walk_to_place(entries, address)
}

// Whether the address of the entry is in the list.
pub(crate) fn is_in(addresses: &[Mac], entry: &MacEntry) -> bool
    ensures { result ≡ is_listed addresses.now entry.now }
{
    for address in addresses {
        if is_entry_of(*address, entry) {
            return true;
        }
    }
    false
}
