//! What is stored makes way for an address that comes.
ghost use Rattle.std.specs.Prelude.{◌≡◌, ◌≤◌, ◌<◌, ℕ, All, length};
ghost use Rattle.mac_table.specs.{Addresses.{NoneAfter, entry_place}, Stored.{IsReady, held}};

use crate::MacEntry;
use crate::removal::Removal;
use crate::stored::Stored;
use net_values::Mac;

// A frame came at the tick `now`; the answer is the tick since which entries are held. Where that would be a later one nothing is held, and
// nothing is stored any more.
pub(crate) fn begin_at(stored: &mut Stored, since: u64, now: u64) -> u64
    requires { NoneAfter now (held since stored.old.entries) }
    ensures before { result ≤ now }
    ensures capacity { stored.new.capacity ≡ stored.old.capacity }
    ensures held { held result stored.new.entries ≡ held since stored.old.entries }
    ensures aged { (oldest : ℕ) → All (λ e. oldest ≤ e.tick) stored.old.entries → All (λ e. oldest ≤ e.tick) stored.new.entries }
{
    if now < since {
        stored.clear();
        return 0;
    }
    since
}

// Makes way for an address, where no entry has an earlier tick than `oldest`; the answer is such a tick for what is then stored. What has
// aged out is taken out where there is no room, and the address' own entry where that has.
pub(crate) fn make_way(stored: &mut Stored, since: u64, oldest: u64, address: Mac) -> u64
    requires { All (λ e. oldest ≤ e.tick) stored.old.entries }
    ensures capacity { stored.new.capacity ≡ stored.old.capacity }
    ensures held { held since stored.new.entries ≡ held since stored.old.entries }
    ensures aged { All (λ e. result ≤ e.tick) stored.new.entries }
    ensures ready { IsReady since stored.new.capacity address stored.new.entries }
{
    if since <= oldest {
        return oldest;
    }
    let place = stored.place(address);
    if place < stored.len() {
        take_aged(stored, since, address, place);
        return oldest;
    }
    if stored.is_full() {
        return take_all_aged(stored, since);
    }
    oldest
}

// Takes the entry of an address out, where it has aged out.
fn take_aged(stored: &mut Stored, since: u64, address: Mac, place: usize)
    requires place { place ≡ entry_place stored.old.entries address }
    requires within { place < length stored.old.entries }
    ensures capacity { stored.new.capacity ≡ stored.old.capacity }
    ensures held { held since stored.new.entries ≡ held since stored.old.entries }
    ensures aged { (oldest : ℕ) → All (λ e. oldest ≤ e.tick) stored.old.entries → All (λ e. oldest ≤ e.tick) stored.new.entries }
    ensures ready { IsReady since stored.new.capacity address stored.new.entries }
{
    if stored.as_slice()[place].tick < since {
        stored.take_at(place);
    }
}

// Takes all entries out that have aged out; the answer is a tick before which none came that is left.
fn take_all_aged(stored: &mut Stored, since: u64) -> u64
    ensures rest { stored.new ≡ record stored.old { entries = held since stored.old.entries } }
    ensures aged { All (λ e. result ≤ e.tick) stored.new.entries }
{
    stored.take_many(Removal::Before { since });
    oldest_of(stored.as_slice())
}

// The first tick of entries; where there are none, the last of all ticks.
fn oldest_of(entries: &[MacEntry]) -> u64
    ensures { All (λ e. result ≤ e.tick) entries.now }
{
    let mut oldest = u64::MAX;
    for entry in entries {
        oldest = oldest.min(entry.tick);
    }
    oldest
}
