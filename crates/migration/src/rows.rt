//! Rows as tables.
ghost use Rattle.std.specs.{Prelude.{◌≡◌, ◌++◌, [], ◌∷◌, map, IfOk, OnOk}, List.{All}};
ghost use Rattle.toml.specs.{Data.{no_members, string, table}, View.{view, table_view}};
ghost use Rattle.line_shapes.specs.Words.{edge_name};
ghost use Rattle.migration.specs.{Rows.{ends_table}, Sayable.{HasTexts}};

use crate::items::{push_table, push_text};
use crate::keys::{no_keys, put_array, put_number, put_table, put_text, put_told};
use crate::names::{class_text, edge_text, name_text, service_text};
use crate::offers::{group_text, offer_keys, wide};
use net_base::{CircuitPlan, EdgeId, EdgePlan, NoMemory, Plan, ServicePlan, WirePlan};
use std::alloc::Global;
use std::net::Ipv4Addr;
use toml::{Table, Value};

/// A row of a plan, which a table of the document says.
pub trait PlanRow: Sized {
    ghost use Rattle.toml.specs.Data.{Members};
    ghost use Rattle.net_base.specs.declared.plan.Plan.{Plan as Planned};

    /// The table that says a row of a plan.
    ghost table_of: { Planned → Self → Members };

    /// What a row has to be, that a table can say it.
    ghost is_sayable: { Self → Type 0 };

    /// Puts what a row of a plan says into a table without keys.
    fn put(&self, alloc: Global, plan: &Plan, table: &mut Table) -> Result<(), NoMemory>
        requires sayable { is_sayable self.now }
        requires none { table_view table.old ≡ no_members }
        ensures { OnOk result (table_view table.new ≡ table_of plan.now self.now) };
}

impl PlanRow for EdgePlan {
    ghost use Rattle.migration.specs.Rows.{edge_table};

    ghost table_of = { λ plan edge. edge_table edge };

    ghost is_sayable = { λ edge. Unit {0} };

    #[tactic(auto, unfolding(crate::specs::Rows::edge_table))]
    fn put(&self, alloc: Global, _plan: &Plan, table: &mut Table) -> Result<(), NoMemory> {
        put_number(alloc, table, "max_pdu", u32::from(self.max_pdu))?;
        put_number(alloc, table, "keepalive", u32::from(self.keepalive))?;
        put_number(alloc, table, "first_label", self.first_label)?;
        let address = Ipv4Addr::from(self.address.0).to_string(alloc)?;
        put_text(alloc, table, "address", address.as_str())?;
        put_text(alloc, table, "name", name_text(&self.name))
    }
}

impl PlanRow for ServicePlan {
    ghost use Rattle.migration.specs.Rows.{service_table};

    ghost table_of = { λ plan service. service_table service };

    ghost is_sayable = { λ service. Unit {0} };

    #[tactic(auto, unfolding(crate::specs::Rows::service_table))]
    fn put(&self, alloc: Global, _plan: &Plan, table: &mut Table) -> Result<(), NoMemory> {
        put_number(alloc, table, "age", self.age)?;
        put_number(alloc, table, "mtu", u32::from(self.mtu))?;
        put_text(alloc, table, "name", name_text(&self.name))
    }
}

/// A group, by its number.
impl PlanRow for u32 {
    ghost use Rattle.migration.specs.Rows.{group_table};

    ghost table_of = { λ plan group. group_table group };

    ghost is_sayable = { λ group. Unit {0} };

    #[tactic(auto, unfolding(crate::specs::Rows::group_table))]
    fn put(&self, alloc: Global, _plan: &Plan, table: &mut Table) -> Result<(), NoMemory> {
        put_number(alloc, table, "number", *self)?;
        let name = group_text(alloc, *self)?;
        put_text(alloc, table, "name", name.as_str())
    }
}

impl PlanRow for CircuitPlan {
    ghost use Rattle.migration.specs.Rows.{circuit_table};

    ghost table_of = { circuit_table };

    ghost is_sayable = { λ circuit. Unit {0} };

    #[tactic(auto, unfolding(crate::specs::Rows::circuit_table))]
    fn put(&self, alloc: Global, plan: &Plan, table: &mut Table) -> Result<(), NoMemory> {
        put_told(alloc, table, "tag", wide(self.tag))?;
        put_text(alloc, table, "service", service_text(plan, self.service))?;
        put_text(alloc, table, "edge", edge_text(plan, self.edge))?;
        put_text(alloc, table, "name", name_text(&self.name))
    }
}

// The names of the edges of a path.
fn path_items(alloc: Global, plan: &Plan, path: &[EdgeId]) -> Result<Vec<Value>, NoMemory>
    ensures { IfOk result (λ items. map view items.items ≡ map (λ edge. string (edge_name plan.now edge)) path.now) }
{
    let mut items = Vec::with_capacity(alloc, path.len())?;
    for edge in path {
        push_text(&mut items, String::from_str(alloc, edge_text(plan, *edge))?)?;
    }
    Ok(items)
}

// Puts what a table of a wire says of its ends and its numbers.
#[tactic(auto, unfolding(crate::specs::Rows::ends_table))]
fn put_ends(alloc: Global, table: &mut Table, wire: &WirePlan) -> Result<(), NoMemory>
    requires texts { HasTexts wire.now }
    requires none { table_view table.old ≡ no_members }
    ensures { OnOk result (table_view table.new ≡ ends_table wire.now) }
{
    let far = offer_keys(alloc, &wire.far)?;
    put_table(alloc, table, "far", far)?;
    let near = offer_keys(alloc, &wire.near)?;
    put_table(alloc, table, "near", near)?;
    put_number(alloc, table, "priority", u32::from(wire.priority))?;
    put_number(alloc, table, "pw_id", wire.pw_id)
}

impl PlanRow for WirePlan {
    ghost use Rattle.migration.specs.Rows.{wire_table};
    ghost use Rattle.migration.specs.Sayable.{HasTexts};

    ghost table_of = { wire_table };

    ghost is_sayable = { HasTexts };

    #[tactic(auto, unfolding(crate::specs::Rows::wire_table))]
    fn put(&self, alloc: Global, plan: &Plan, table: &mut Table) -> Result<(), NoMemory> {
        put_ends(alloc, table, self)?;
        let path = path_items(alloc, plan, self.path.as_slice())?;
        put_array(alloc, table, "path", path)?;
        put_text(alloc, table, "class", class_text(self.class))?;
        put_text(alloc, table, "service", service_text(plan, self.service))?;
        put_text(alloc, table, "name", name_text(&self.name))
    }
}

// Adds the table of a row of a plan.
fn push_row<T: PlanRow>(
    alloc: Global,
    plan: &Plan,
    item: &T,
    rows: &mut Vec<Value>,
) -> Result<(), NoMemory>
    requires { T.is_sayable item.now }
    ensures { OnOk result (map view rows.new.items ≡ map view rows.old.items ++ table (T.table_of plan.now item.now) ∷ []) }
{
    let mut row = no_keys(alloc);
    match item.put(alloc, plan, &mut row) {
        Ok(()) => push_table(rows, row),
        Err(fault) => Err(fault),
    }
}

/// The tables of rows of a plan.
pub fn rows<T: PlanRow>(alloc: Global, plan: &Plan, items: &[T]) -> Result<Vec<Value>, NoMemory>
    requires { All T.is_sayable items.now }
    ensures { IfOk result (λ rows. map view rows.items ≡ map (λ item. table (T.table_of plan.now item)) items.now) }
{
    let mut rows = Vec::with_capacity(alloc, items.len())?;
    for item in items {
        push_row(alloc, plan, item, &mut rows)?;
    }
    Ok(rows)
}
