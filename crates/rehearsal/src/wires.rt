//! The wires of a rehearsal.
ghost use Rattle.std.specs.{Prelude.{◌≡◌, ◌<◌, ◌≤◌, ◌+◌, ◌-◌, ◌*◌, ◌++◌, ◌∷◌, [], length, IfOk, OnOk}, Fmt.{decimal}};
ghost use Rattle.net_values.specs.Name.{IsName};
ghost use Rattle.rehearsal.specs.Rows.{offer, rehearsed_wire, mesh_wire, mesh_beside, mesh_among, first_spoke, second_spoke, wires};

use crate::numbered::numbered;
use crate::rehearsed_wire::RehearsedWire;
use net_base::{Class, EdgeId, List, NoMemory, Offer, ServiceId, Text, WirePlan};
use std::alloc::Global;

// What every wire offers at both ends.
fn offer() -> Offer
    ensures { result ≡ offer }
{
    Offer {
        tagged: false,
        cword: true,
        mtu: Some(1500),
        vlan: None,
        vccv: None,
        status: true,
        group: 0,
        description: Text::read(&[]).unwrap(),
    }
}

// The path from one edge to another one, by their numbers.
fn path(alloc: Global, from: u16, to: u16) -> Result<List<EdgeId>, NoMemory>
    requires from { 1 ≤ from }
    requires to { 1 ≤ to }
    ensures { IfOk result (λ path. path ≡ record { 0 = from - 1 } ∷ record { 0 = to - 1 } ∷ []) }
{
    let mut path = List::new(alloc);
    path.push(EdgeId(from - 1))?;
    path.push(EdgeId(to - 1))?;
    Ok(path)
}

// The wire whose name is this letter and number.
fn wire(alloc: Global, letter: &str, number: u16, link: RehearsedWire) -> Result<WirePlan, NoMemory>
    requires name { IsName letter.now }
    requires one { length letter.now ≡ 1 }
    requires from { 1 ≤ link.from }
    requires to { 1 ≤ link.to }
    ensures { IfOk result (λ row. row ≡ rehearsed_wire (letter.now ++ decimal number) link) }
{
    let name = numbered(alloc, letter, number)?;
    let path = path(alloc, link.from, link.to)?;
    Ok(WirePlan {
        name,
        service: ServiceId(0),
        class: link.class,
        path,
        pw_id: link.pw_id,
        near: offer(),
        far: offer(),
        priority: link.priority,
    })
}

// The mesh wire of this number.
fn mesh(alloc: Global, from: u16, to: u16, number: u16) -> Result<WirePlan, NoMemory>
    requires from { 1 ≤ from }
    requires to { 1 ≤ to }
    ensures { IfOk result (λ row. row ≡ mesh_wire from to number) }
{
    let link = RehearsedWire {
        class: Class::Mesh,
        from,
        to,
        pw_id: 100 + number as u32,
        priority: 100,
    };
    wire(alloc, "m", number, link)
}

// Adds the mesh wires from a core edge to those behind it, of which the first has this number.
fn add_mesh(
    alloc: Global,
    wires: &mut List<WirePlan>,
    from: u16,
    number: u16,
) -> Result<(), NoMemory>
    requires from { (1 ≤ from) × (from ≤ 8) }
    requires few { number ≤ 64 }
    ensures { OnOk result (wires.new ≡ wires.old ++ mesh_beside (8 - from) from (from + 1) number) }
{
    for to in from + 1..9 {
        wires.push(mesh(alloc, from, to, number + (to - from - 1))?)?;
    }
    Ok(())
}

// Adds the full mesh of the core edges.
fn add_mesh_wires(alloc: Global, wires: &mut List<WirePlan>) -> Result<(), NoMemory>
    ensures { OnOk result (wires.new ≡ wires.old ++ mesh_among 8 1 1) }
{
    let mut number = 1;
    for from in 1..9u16 {
        add_mesh(alloc, wires, from, number)?;
        number += 8 - from;
    }
    Ok(())
}

// Adds the two spokes of a spoke edge.
fn add_spokes(alloc: Global, wires: &mut List<WirePlan>, place: u16) -> Result<(), NoMemory>
    requires { place < 8 }
    ensures { OnOk result (wires.new ≡ (wires.old ++ first_spoke place ∷ []) ++ second_spoke place ∷ []) }
{
    let first = RehearsedWire {
        class: Class::Spoke,
        from: place + 9,
        to: place + 1,
        pw_id: 201 + 2 * place as u32,
        priority: 10,
    };
    wires.push(wire(alloc, "p", place + 9, first)?)?;
    let second = RehearsedWire {
        class: Class::Spoke,
        from: place + 9,
        to: (place + 1) % 8 + 1,
        pw_id: 202 + 2 * place as u32,
        priority: 20,
    };
    wires.push(wire(alloc, "q", place + 9, second)?)
}

/// Adds the full mesh of the core edges, and behind it the spokes, edge by edge.
#[tactic(auto, unfolding(crate::specs::Rows::wires))]
pub fn add_wires(alloc: Global, rows: &mut List<WirePlan>) -> Result<(), NoMemory>
    ensures { OnOk result (rows.new ≡ rows.old ++ wires) }
{
    add_mesh_wires(alloc, rows)?;
    for place in 0..8u16 {
        add_spokes(alloc, rows, place)?;
    }
    Ok(())
}
