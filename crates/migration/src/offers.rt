//! Offers as tables.
ghost use Rattle.std.specs.{Prelude.{◌≡◌, ◌++◌, codes, string_bytes, IfOk, OnOk}, Str.{IsUtf8}};
ghost use Rattle.toml.specs.{Data.{no_members}, View.{table_view}};
ghost use Rattle.migration.specs.{Groups.{group_name}, Rows.{offer_table, put_group}};

use crate::keys::{no_keys, put_boolean, put_number, put_text, put_told};
use crate::names::mode_text;
use net_base::{NoMemory, Offer};
use std::alloc::Global;
use std::str;
use toml::Table;

/// The name of a group: `g` and its number.
#[tactic(auto, unfolding(crate::specs::Groups::group_name))]
pub fn group_text(alloc: Global, group: u32) -> Result<String, NoMemory>
    ensures { IfOk result (λ t. string_bytes t ≡ group_name group) }
{
    Ok(format!(in alloc; "g{group}")?)
}

// Puts the group of an end, where it has one.
fn put_group_of(alloc: Global, table: &mut Table, group: u32) -> Result<(), NoMemory>
    ensures { OnOk result (table_view table.new ≡ put_group group (table_view table.old)) }
{
    if group == 0 {
        return Ok(());
    }
    let name = group_text(alloc, group)?;
    put_text(alloc, table, "group", name.as_str())
}

/// A number of 16 bits, where it is told.
pub fn wide(number: Option<u16>) -> Option<u32>
    ensures { result ≡ number }
{
    match number {
        Some(number) => Some(u32::from(number)),
        None => None,
    }
}

// Puts what an offer says into a table without keys.
#[tactic(auto, unfolding(crate::specs::Rows::offer_table))]
fn put_offer(alloc: Global, table: &mut Table, offer: &Offer) -> Result<(), NoMemory>
    requires text { IsUtf8 offer.now.description }
    requires none { table_view table.old ≡ no_members }
    ensures { OnOk result (table_view table.new ≡ offer_table offer.now) }
{
    let description = str::from_utf8(offer.description.as_slice()).unwrap();
    put_text(alloc, table, "description", description)?;
    put_group_of(alloc, table, offer.group)?;
    put_boolean(alloc, table, "status", offer.status)?;
    put_number(alloc, table, "vccv", u32::from(offer.vccv.unwrap_or(0)))?;
    put_told(alloc, table, "vlan", wide(offer.vlan))?;
    put_number(alloc, table, "mtu", u32::from(offer.mtu.unwrap_or(0)))?;
    put_boolean(alloc, table, "control_word", offer.cword)?;
    put_text(alloc, table, "mode", mode_text(offer.tagged))
}

/// The table of an offer.
pub fn offer_keys(alloc: Global, offer: &Offer) -> Result<Table, NoMemory>
    requires { IsUtf8 offer.now.description }
    ensures { IfOk result (λ t. table_view t ≡ offer_table offer.now) }
{
    let mut table = no_keys(alloc);
    match put_offer(alloc, &mut table, offer) {
        Ok(()) => Ok(table),
        Err(fault) => Err(fault),
    }
}
