//! What a row of a table is read as.
ghost use Rattle.toml.specs.View.{table_view};
ghost use Rattle.command_text.specs.Reading.{Gives};

use crate::circuit_row::CircuitRow;
use crate::group_row::GroupRow;
use crate::keys::only_known_keys;
use crate::members::{
    address_at, class_at, name_at, number_at, number_or, optional_number, path_at,
};
use crate::offers::ends;
use crate::table_row::TableRow;
use crate::wire_row::WireRow;
use command_text::ScenarioFault;
use net_base::{EdgePlan, ServicePlan, Table as TableKind};
use std::alloc::Global;

/// What a row of a table is read as.
pub trait Row: Sized + Drop {
    ghost use Rattle.std.specs.Prelude.{Result};
    ghost use Rattle.toml.specs.Data.{Members};
    ghost use Rattle.command_text.specs.{declared.row_place.RowPlace.{RowPlace}, declared.scenario_fault.ScenarioFault.{ScenarioFault}};
    ghost use Rattle.scenario_text.specs.declared.document_version.DocumentVersion.{DocumentVersion};

    /// What the members of a row say.
    ghost row_of: { DocumentVersion → RowPlace → Members → Result Self ScenarioFault };

    /// The row that a table is.
    fn read(alloc: Global, row: TableRow<'_>) -> Result<Self, ScenarioFault>
        ensures { Gives result (row_of row.entry.version row.entry.place (table_view row.entry.table.now)) };
}

impl Row for EdgePlan {
    ghost use Rattle.scenario_text.specs.Rows.{edge_in};

    ghost row_of = { edge_in };

    #[tactic(auto, unfolding(crate::specs::Rows::edge_in))]
    fn read(_alloc: Global, row: TableRow<'_>) -> Result<EdgePlan, ScenarioFault> {
        let name = name_at(row, "name")?;
        let address = address_at(row, "address")?;
        let first_label = number_or(16, row, "first_label", 16, 1048575)?;
        let keepalive = number_or(180, row, "keepalive", 3, 65535)? as u16;
        let max_pdu = number_or(4096, row, "max_pdu", 256, 4096)? as u16;
        match only_known_keys(row.version, TableKind::Edge, row.place, row.table) {
            Ok(()) => Ok(EdgePlan {
                name,
                address,
                first_label,
                keepalive,
                max_pdu,
            }),
            Err(fault) => Err(fault),
        }
    }
}

impl Row for ServicePlan {
    ghost use Rattle.scenario_text.specs.Rows.{service_in};

    ghost row_of = { service_in };

    #[tactic(auto, unfolding(crate::specs::Rows::service_in))]
    fn read(_alloc: Global, row: TableRow<'_>) -> Result<ServicePlan, ScenarioFault> {
        let name = name_at(row, "name")?;
        let mtu = number_or(1500, row, "mtu", 64, 9198)? as u16;
        let age = number_or(300, row, "age", 1, 1000000)?;
        match only_known_keys(row.version, TableKind::Service, row.place, row.table) {
            Ok(()) => Ok(ServicePlan { name, mtu, age }),
            Err(fault) => Err(fault),
        }
    }
}

impl Row for GroupRow {
    ghost use Rattle.scenario_text.specs.Rows.{group_row_in};

    ghost row_of = { group_row_in };

    #[tactic(auto, unfolding(crate::specs::Rows::group_row_in))]
    fn read(_alloc: Global, row: TableRow<'_>) -> Result<GroupRow, ScenarioFault> {
        let name = name_at(row, "name")?;
        let number = number_at(row, "number", 1, 4294967295)?;
        match only_known_keys(row.version, TableKind::Group, row.place, row.table) {
            Ok(()) => Ok(GroupRow { name, number }),
            Err(fault) => Err(fault),
        }
    }
}

impl Row for CircuitRow {
    ghost use Rattle.scenario_text.specs.Rows.{circuit_row_in};

    ghost row_of = { circuit_row_in };

    #[tactic(auto, unfolding(crate::specs::Rows::circuit_row_in))]
    fn read(_alloc: Global, row: TableRow<'_>) -> Result<CircuitRow, ScenarioFault> {
        let name = name_at(row, "name")?;
        let edge = name_at(row, "edge")?;
        let service = name_at(row, "service")?;
        let tag = optional_number(None, row, "tag", 1, 4094)?;
        match only_known_keys(row.version, TableKind::Circuit, row.place, row.table) {
            Ok(()) => Ok(CircuitRow {
                name,
                edge,
                service,
                tag,
            }),
            Err(fault) => Err(fault),
        }
    }
}

impl Row for WireRow {
    ghost use Rattle.scenario_text.specs.Rows.{wire_row_in};

    ghost row_of = { wire_row_in };

    #[tactic(auto, unfolding(crate::specs::Rows::wire_row_in))]
    fn read(alloc: Global, row: TableRow<'_>) -> Result<WireRow, ScenarioFault> {
        let name = name_at(row, "name")?;
        let service = name_at(row, "service")?;
        let class = class_at(row, "class")?;
        let path = path_at(alloc, row, "path")?;
        let pw_id = number_at(row, "pw_id", 1, 4294967295)?;
        let priority = number_or(100, row, "priority", 0, 255)? as u8;
        match ends(row) {
            Ok(ends) => Ok(WireRow {
                name,
                service,
                class,
                path,
                pw_id,
                priority,
                near: ends.near,
                far: ends.far,
            }),
            Err(fault) => Err(fault),
        }
    }
}
