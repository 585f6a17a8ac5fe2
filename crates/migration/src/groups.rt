//! The groups that a plan's wires use.
ghost use Rattle.std.specs.Prelude.{◌≡◌, IfOk, OnOk};
ghost use Rattle.migration.specs.Groups.{used_also, used_groups};

use indexmap::IndexSet;
use net_base::{NoMemory, WirePlan};
use std::alloc::Global;

// Adds a group that is not used already; 0 is no group.
fn use_also(used: &mut IndexSet<u32>, group: u32) -> Result<(), NoMemory>
    ensures { OnOk result (used.new.keys ≡ used_also used.old.keys group) }
{
    if group == 0 {
        return Ok(());
    }
    match used.insert(group) {
        Ok(_) => Ok(()),
        Err(_) => Err(NoMemory),
    }
}

/// The groups of wires, in the order of their first use.
pub fn groups_of(alloc: Global, wires: &[WirePlan]) -> Result<IndexSet<u32>, NoMemory>
    ensures { IfOk result (λ used. used.keys ≡ used_groups wires.now) }
{
    let mut used = IndexSet::new(alloc);
    for wire in wires {
        use_also(&mut used, wire.near.group)?;
        use_also(&mut used, wire.far.group)?;
    }
    Ok(used)
}
