//! One table through its calls, with values that were worked out by hand.
ghost use Rattle.std.specs.Prelude.{◌≡◌, false};
ghost use Rattle.mac_table.specs.Addresses.{NoneAfter};
ghost use Rattle.net_values.specs.Mac.{is_group_address};

use crate::words::holds;
use mac_table::{Learned, MacEntry, MacTable};
use net_base::{List, Mac};
use std::alloc::Global;
use std::process::Abort;

const FIRST: Mac = Mac([2, 0, 0, 0, 0, 1]);

const SECOND: Mac = Mac([2, 0, 0, 0, 0, 2]);

const THIRD: Mac = Mac([2, 0, 0, 0, 1, 1]);

// The first address at port 3 since tick 10.
const AT_THREE: MacEntry = MacEntry {
    address: FIRST,
    port: 3,
    tick: 10,
};

// A frame from a station came by a port at tick 10.
fn learns(rt: &impl Abort, table: &mut MacTable, address: Mac, port: u16, want: Learned)
    requires station { is_group_address address.0 ≡ false }
    requires ticks { NoneAfter 10 table.old.entries }
    ensures ticks { NoneAfter 10 table.new.entries }
{
    holds(rt, table.learn(address, port, 10) == want, "learns");
}

// The port of an address.
fn finds(rt: &impl Abort, table: &MacTable, address: Mac, port: Option<u16>) {
    holds(rt, table.find(address) == port, "finds");
}

// A table with room for two addresses learns three.
fn learns_three(rt: &impl Abort, table: &mut MacTable)
    requires ticks { NoneAfter 10 table.old.entries }
{
    learns(rt, table, FIRST, 1, Learned::New);
    learns(rt, table, SECOND, 1, Learned::New);
    learns(rt, table, FIRST, 3, Learned::Kept);
    learns(rt, table, THIRD, 1, Learned::NotLearned);
}

// The table holds two of them, the first at port 3 since tick 10.
fn holds_two(rt: &impl Abort, table: &MacTable) {
    holds(rt, table.len() == 2, "two addresses");
    holds(rt, table.entry(0) == Some(AT_THREE), "the first at port 3");
    finds(rt, table, SECOND, Some(1));
    finds(rt, table, THIRD, None);
}

#[test]
fn learns_up_to_its_capacity(rt: HostRuntime) {
    let mut table = MacTable::open(rt.alloc(), 2).expect(&rt, "memory");
    learns_three(&rt, &mut table);
    holds_two(&rt, &table);
}

// A table learns two addresses and forgets the older one, and then that of a port.
#[tactic(auto, using(mac_table::proofs::AddressLemmas::none_after_later))]
fn forgets(rt: &impl Abort, table: &mut MacTable)
    requires ticks { NoneAfter 10 table.old.entries }
{
    table.learn(FIRST, 1, 10);
    table.learn(SECOND, 2, 11);
    table.age(40, 30);
    finds(rt, table, FIRST, None);
    finds(rt, table, SECOND, Some(2));
    table.drop_port(2);
    holds(rt, table.is_empty(), "no address");
}

#[test]
fn forgets_old_addresses(rt: HostRuntime) {
    let mut table = MacTable::open(rt.alloc(), 4).expect(&rt, "memory");
    forgets(&rt, &mut table);
}

// A table with the three addresses, the second of them at port 2.
fn three(rt: &impl Abort, alloc: Global) -> MacTable {
    let mut table = MacTable::open(alloc, 4).expect(rt, "memory");
    learns(rt, &mut table, FIRST, 1, Learned::New);
    learns(rt, &mut table, SECOND, 2, Learned::New);
    learns(rt, &mut table, THIRD, 1, Learned::New);
    table
}

fn first_and_second(rt: &impl Abort, alloc: Global) -> List<Mac> {
    let mut list = List::new(alloc);
    list.push(FIRST).expect(rt, "memory");
    list.push(SECOND).expect(rt, "memory");
    list
}

// Withdraws addresses at port 1.
fn withdraw(table: &mut MacTable, list: &List<Mac>) {
    table.withdraw(1, list);
}

// Withdraws the first two addresses at port 1, and then with an empty list those at other ports.
fn withdraws(rt: &impl Abort, alloc: Global, table: &mut MacTable) {
    withdraw(table, &first_and_second(rt, alloc));
    finds(rt, table, FIRST, None);
    finds(rt, table, SECOND, Some(2));
    finds(rt, table, THIRD, Some(1));
    withdraw(table, &List::new(alloc));
    finds(rt, table, SECOND, None);
    finds(rt, table, THIRD, Some(1));
}

#[test]
fn withdraws_addresses(rt: HostRuntime) {
    let mut table = three(&rt, rt.alloc());
    withdraws(&rt, rt.alloc(), &mut table);
}
