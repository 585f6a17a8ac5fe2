//! The entries that are held, among those that are stored.
ghost use Rattle.std.specs.Prelude.{◌≡◌, ◌≤◌, ◌==◌, ◌+◌, ◌++◌, length, not, slice_get, vec_capacity};
ghost use Rattle.mac_table.specs.Stored.{held};

use crate::MacEntry;
use crate::edits::append;

// How many are held.
#[tactic(auto, using(crate::proofs::StoredLemmas::held_few))]
pub(crate) fn count_held(entries: &[MacEntry], since: u64) -> usize
    ensures count { result ≡ length (held since entries.now) }
    ensures within { length (held since entries.now) ≤ length entries.now }
{
    let mut count = 0;
    for entry in entries {
        if since <= entry.tick {
            count += 1;
        }
    }
    count
}

// Whether any is held.
pub(crate) fn is_any_held(entries: &[MacEntry], since: u64) -> bool
    ensures { result ≡ not (length (held since entries.now) == 0) }
{
    for entry in entries {
        if since <= entry.tick {
            return true;
        }
    }
    false
}

// The one at an index, where all are held.
pub(crate) fn entry_at(entries: &[MacEntry], index: usize) -> Option<MacEntry>
    ensures { result ≡ slice_get entries.now index }
{
    entries.get(index).copied()
}

// The one at an index among those that are held.
pub(crate) fn held_at(entries: &[MacEntry], since: u64, index: usize) -> Option<MacEntry>
    ensures { result ≡ slice_get (held since entries.now) index }
{
    let mut left = index;
    for entry in entries {
        if since <= entry.tick {
            if left == 0 {
                return Some(*entry);
            }
            left -= 1;
        }
    }
    None
}

// Adds those that are held to a list that has room for them; the room of the list stays what it is.
pub(crate) fn add_held(entries: &[MacEntry], since: u64, out: &mut Vec<MacEntry>)
    requires { length out.old.items + length (held since entries.now) ≤ vec_capacity out.old }
    ensures items { out.new.items ≡ out.old.items ++ held since entries.now }
    ensures room { vec_capacity out.new ≡ vec_capacity out.old }
{
    for entry in entries {
        if since <= entry.tick {
            append(out, *entry);
        }
    }
}
