//! What the ends of a wire offer.
ghost use Rattle.std.specs.Prelude.{◌≡◌, option_map, IfOk};
ghost use Rattle.toml.specs.View.{table_view};
ghost use Rattle.scenario_text.specs.Rows.{near_in, far_in, ends_by_keys, end_or, ends_by_tables, ends_in, plain_offer};
ghost use Rattle.scenario_text.specs.Offers.{HasRanges, keys_view, offer_in, rest_in};

use crate::document_version::DocumentVersion;
use crate::end_rows::EndRows;
use crate::group_use::GroupUse;
use crate::keys::only_known_keys;
use crate::members::{
    boolean_or, description_or, group_or, mode_or, number_or, optional_number, optional_table,
};
use crate::offer_keys::OfferKeys;
use crate::offer_row::OfferRow;
use crate::table_row::TableRow;
use command_text::{RowPlace, ScenarioFault};
use net_base::{Table as TableKind, Text};
use toml::Table;

// An offer with what the row says of VCCV, status, group and description.
#[tactic(auto, unfolding(crate::specs::Offers::rest_in))]
fn with_rest(
    keys: &OfferKeys,
    front: &OfferRow,
    row: TableRow<'_>,
) -> Result<OfferRow, ScenarioFault>
    requires { HasRanges front.now }
    ensures exact { result ≡ rest_in (keys_view keys.now) front.now row.entry.version row.entry.place (table_view row.entry.table.now) }
    ensures ranges { IfOk result HasRanges }
{
    let vccv = number_or(front.vccv as u32, row, keys.vccv, 0, 7)? as u8;
    let status = boolean_or(front.status, row, keys.status)?;
    let group = group_or(row.version, front.group, row, keys.group)?;
    match description_or(&front.description, row, keys.description) {
        Ok(description) => Ok(OfferRow {
            vccv,
            status,
            group,
            description,
            ..*front
        }),
        Err(fault) => Err(fault),
    }
}

// What an end of a wire offers by these keys, which is the same as another offer where nothing else is said.
#[tactic(auto, unfolding(crate::specs::Offers::offer_in))]
fn offer(keys: &OfferKeys, other: &OfferRow, row: TableRow<'_>) -> Result<OfferRow, ScenarioFault>
    requires { HasRanges other.now }
    ensures exact { result ≡ offer_in (keys_view keys.now) other.now row.entry.version row.entry.place (table_view row.entry.table.now) }
    ensures ranges { IfOk result HasRanges }
{
    let tagged = mode_or(other.tagged, row, keys.mode)?;
    let cword = boolean_or(other.cword, row, keys.control_word)?;
    let mtu = optional_number(other.mtu, row, keys.mtu, 0, 65535)?;
    match optional_number(other.vlan, row, keys.vlan, 0, 4095) {
        Ok(vlan) => {
            let front = OfferRow {
                tagged,
                cword,
                mtu,
                vlan,
                ..*other
            };
            with_rest(keys, &front, row)
        }
        Err(fault) => Err(fault),
    }
}

// What an end offers of which nothing is said.
fn plain() -> OfferRow
    ensures exact { result ≡ plain_offer }
    ensures ranges { HasRanges result }
{
    OfferRow {
        tagged: false,
        cword: true,
        mtu: None,
        vlan: None,
        vccv: 0,
        status: true,
        group: GroupUse::Number(0),
        description: Text::read(&[]).unwrap(),
    }
}

// What an end of a wire offers by keys without a prefix.
#[tactic(auto, using(crate::proofs::OfferLemmas::near_is))]
fn near_offer(row: TableRow<'_>) -> Result<OfferRow, ScenarioFault>
    ensures exact { result ≡ near_in row.entry.version row.entry.place (table_view row.entry.table.now) }
    ensures ranges { IfOk result HasRanges }
{
    offer(&OfferKeys::near(), &plain(), row)
}

// What the far end of a wire offers by its keys, which is the same as the near one where nothing else is said.
#[tactic(auto, using(crate::proofs::OfferLemmas::far_is))]
fn far_offer(near: &OfferRow, row: TableRow<'_>) -> Result<OfferRow, ScenarioFault>
    requires version { row.version ≡ DocumentVersion.One }
    requires ranges { HasRanges near.now }
    ensures { result ≡ far_in near.now row.entry.place (table_view row.entry.table.now) }
{
    offer(&OfferKeys::far(), near, row)
}

// The ends of a wire by its own keys.
#[tactic(auto, unfolding(crate::specs::Rows::ends_by_keys))]
fn ends_of_keys(row: TableRow<'_>) -> Result<EndRows, ScenarioFault>
    requires { row.version ≡ DocumentVersion.One }
    ensures { result ≡ ends_by_keys row.entry.place (table_view row.entry.table.now) }
{
    let near = near_offer(row)?;
    let far = far_offer(&near, row)?;
    match only_known_keys(row.version, TableKind::Wire, row.place, row.table) {
        Ok(()) => Ok(EndRows { near, far }),
        Err(fault) => Err(fault),
    }
}

// What an end offers by its table, at the wire's index, and without it another offer.
#[tactic(auto, unfolding(crate::specs::Rows::offer_table_in))]
fn end_of(
    other: &OfferRow,
    kind: TableKind,
    index: u32,
    table: Option<&Table>,
) -> Result<OfferRow, ScenarioFault>
    ensures { result ≡ end_or other.now kind index (option_map (λ t. table_view t.now) table.entry) }
{
    let Some(table) = table else {
        return Ok(*other);
    };
    let row = TableRow {
        version: DocumentVersion::Two,
        place: RowPlace { table: kind, index },
        table,
    };
    let offer = near_offer(row)?;
    match only_known_keys(DocumentVersion::Two, kind, row.place, table) {
        Ok(()) => Ok(offer),
        Err(fault) => Err(fault),
    }
}

// The ends of a wire by tables of their own.
#[tactic(auto, unfolding(crate::specs::Rows::ends_by_tables))]
fn ends_of_tables(row: TableRow<'_>) -> Result<EndRows, ScenarioFault>
    requires { row.version ≡ DocumentVersion.Two }
    ensures { result ≡ ends_by_tables row.entry.place (table_view row.entry.table.now) }
{
    let near_table = optional_table(row, "near")?;
    let far_table = optional_table(row, "far")?;
    only_known_keys(DocumentVersion::Two, TableKind::Wire, row.place, row.table)?;
    let near = end_of(&plain(), TableKind::Near, row.place.index, near_table)?;
    match end_of(&near, TableKind::Far, row.place.index, far_table) {
        Ok(far) => Ok(EndRows { near, far }),
        Err(fault) => Err(fault),
    }
}

/// The ends of a wire. A key that the wire lacks is refused behind the keys that say what its ends offer in version 1, and behind the
/// wire's own keys in version 2.
pub fn ends(row: TableRow<'_>) -> Result<EndRows, ScenarioFault>
    ensures { result ≡ ends_in row.entry.version row.entry.place (table_view row.entry.table.now) }
{
    match row.version {
        DocumentVersion::One => ends_of_keys(row),
        DocumentVersion::Two => ends_of_tables(row),
    }
}
