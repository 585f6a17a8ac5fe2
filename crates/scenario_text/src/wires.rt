//! The wires of a plan.
ghost use Rattle.std.specs.Prelude.{◌≡◌, ◌≤◌, length, IfOk};
ghost use Rattle.net_base.specs.plan.NameFaults.{service_names};
ghost use Rattle.command_text.specs.Reading.{Gives};
ghost use Rattle.scenario_text.specs.Top.{most_wires};
ghost use Rattle.scenario_text.specs.References.{offer_from, mtu_at, group_names, group_in, path_in, wire_in, wires_in};

use crate::group_rows::GroupRows;
use crate::group_use::GroupUse;
use crate::named::named_place;
use crate::offer_row::OfferRow;
use crate::rows::row_place;
use crate::service_rows::ServiceRows;
use crate::wire_row::WireRow;
use command_text::{RowPlace, ScenarioFault};
use net_base::{EdgeId, List, Name, Offer, ServiceId, ServicePlan, Table as TableKind, WirePlan};
use plan_names::NameIndex;
use std::alloc::Global;

// The Group ID of an end. `UnknownName` comes exactly where no group has the name that is given.
fn group_id(groups: GroupRows<'_, '_>, end: RowPlace, group: GroupUse) -> Result<u32, ScenarioFault>
    requires { groups.index.now ≡ group_names groups.rows.now }
    ensures { result ≡ group_in groups.entry.rows.now end group }
{
    match group {
        GroupUse::Number(number) => Ok(number),
        GroupUse::Named(name) => match named_place(end, "group", groups.index, &name) {
            Ok(place) => match groups.rows.get(place as usize) {
                Some(row) => Ok(row.number),
                None => Ok(0),
            },
            Err(fault) => Err(fault),
        },
    }
}

// The offer of an end, where the service has this MTU and the end this Group ID. An MTU and VCCV bits of zero are not told.
fn offer(mtu: u16, group: u32, row: &OfferRow) -> Offer
    ensures { result ≡ offer_from mtu group row.now }
{
    Offer {
        tagged: row.tagged,
        cword: row.cword,
        mtu: match row.mtu.unwrap_or(mtu) {
            0 => None,
            number => Some(number),
        },
        vlan: row.vlan,
        vccv: match row.vccv {
            0 => None,
            bits => Some(bits),
        },
        status: row.status,
        group,
        description: row.description,
    }
}

// The MTU of the service at a place.
fn service_mtu(services: &[ServicePlan], place: u16) -> u16
    ensures { result ≡ mtu_at services.now place }
{
    match services.get(place as usize) {
        Some(service) => service.mtu,
        None => 0,
    }
}

// The edges of a path.
fn path(
    alloc: Global,
    edges: &NameIndex<'_>,
    place: RowPlace,
    names: &[Name],
) -> Result<List<EdgeId>, ScenarioFault>
    ensures { Gives result (path_in edges.now place names.now) }
{
    let mut path = List::new(alloc);
    for name in names {
        let edge = named_place(place, "path", edges, name)?;
        path.push(EdgeId(edge))?;
    }
    Ok(path)
}

// The wire of a row.
#[tactic(auto, unfolding(crate::specs::References::wire_in))]
fn wire(
    alloc: Global,
    edges: &NameIndex<'_>,
    services: ServiceRows<'_, '_>,
    groups: GroupRows<'_, '_>,
    place: RowPlace,
    row: &WireRow,
) -> Result<WirePlan, ScenarioFault>
    requires same { services.index.now ≡ service_names services.rows.now }
    requires named { groups.index.now ≡ group_names groups.rows.now }
    ensures { Gives result (wire_in edges.now services.entry.rows.now groups.entry.rows.now place row.now) }
{
    let service = named_place(place, "service", services.index, &row.service)?;
    let path = path(alloc, edges, place, row.path.as_slice())?;
    let near = RowPlace {
        table: TableKind::Near,
        index: place.index,
    };
    let near_group = group_id(groups, near, row.near.group)?;
    let far = RowPlace {
        table: TableKind::Far,
        index: place.index,
    };
    let far_group = group_id(groups, far, row.far.group)?;
    let mtu = service_mtu(services.rows, service);
    Ok(WirePlan {
        name: row.name,
        service: ServiceId(service),
        class: row.class,
        path,
        pw_id: row.pw_id,
        near: offer(mtu, near_group, &row.near),
        far: offer(mtu, far_group, &row.far),
        priority: row.priority,
    })
}

/// The wires of the rows, at edges of these names and of these services. `UnknownName` comes exactly where a
/// row names an edge or a service that is not among them.
pub fn wires(
    alloc: Global,
    edges: &NameIndex<'_>,
    services: ServiceRows<'_, '_>,
    groups: GroupRows<'_, '_>,
    rows: &[WireRow],
) -> Result<List<WirePlan>, ScenarioFault>
    requires few { length rows.now ≤ most_wires }
    requires same { services.index.now ≡ service_names services.rows.now }
    requires named { groups.index.now ≡ group_names groups.rows.now }
    ensures exact { Gives result (wires_in edges.now services.entry.rows.now groups.entry.rows.now 1 rows.now) }
    ensures many { IfOk result (λ wires. length wires ≡ length rows.now) }
{
    let mut wires = List::new(alloc);
    for (i, row) in rows.iter().enumerate() {
        let place = row_place(TableKind::Wire, i);
        let wire = wire(alloc, edges, services, groups, place, row)?;
        wires.push(wire)?;
    }
    Ok(wires)
}
