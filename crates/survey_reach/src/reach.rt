//! Whom each edge would reach.
ghost use Rattle.std.specs.Prelude.{◌≡◌, ◌<◌, ◌==◌, ◌&&◌, ◌||◌, ℕ, Bool, false, length, map, None, OnOk, IfOk, IfSome};
ghost use Rattle.net_base.specs.plan.{Accepted.{IsChecked}, Places.{wire_row}, Roles.{is_mesh_of}};
ghost use Rattle.network_model.specs.State.{NetworkState};
ghost use Rattle.survey_laws.specs.Would.{last_of, would_core, would_home};
ghost use Rattle.survey_reach.specs.{Ground.{IsGroundOf}, Rows.{IsFilled}, Words.{has_pair}};
ghost use Rattle.survey_reach.specs.Reach.{AreCores, AreMeshes, HasBefallen, IsShapeOf, are_named, home_among, mesh_row, place_of, reaches, spoke_by, spokes_at, would_be_sound};

use crate::loss::{is_taken, number_after};
use crate::met::rows;
use crate::{EdgePairs, FailedGround, Shape};
use edge_model::EndPlace;
use net_base::{Class, EdgeId, NoMemory, Plan, ServiceId, WirePlan, first_of, last_of};
use spoke_redundancy::{Spoke, choose};
use std::alloc::Global;

/// Room in which it is worked out whom each edge would reach.
#[derive(Drop)]
pub struct Reaching {
    // Of each wire, whether it would be sound.
    sound: Vec<bool>,
    // The spokes of an edge.
    spokes: Vec<Spoke>,
    // Of each edge its core edge.
    cores: Vec<Option<EdgeId>>,
}

// Whether a wire would be sound.
#[tactic(auto, using(crate::proofs::GroundLemmas::sound_steps))]
fn would_be_sound(failed: FailedGround<'_>, wire: usize) -> bool
    ghost before: { NetworkState }
    requires ground { IsGroundOf failed.plan.now before failed.ground.now }
    requires wire { wire < length failed.plan.now.wires }
    ensures { result ≡ would_be_sound failed.entry.plan.now before failed.entry.faults.now wire }
{
    match failed.plan.wires.get(wire) {
        Some(row) => failed.ground.sound[wire] && !is_taken(failed.faults, wire, row),
        None => false,
    }
}

// A spoke as the choice of its edge would see it.
#[tactic(auto, using(crate::proofs::GroundLemmas::spoke_steps))]
fn spoke_at(failed: FailedGround<'_>, sound: &[bool], place: EndPlace) -> Spoke
    ghost before: { NetworkState }
    requires ground { IsGroundOf failed.plan.now before failed.ground.now }
    requires sound { IsFilled (would_be_sound failed.plan.now before failed.faults.now) false (length failed.plan.now.wires) sound.now }
    ensures { result ≡ spoke_by failed.entry.plan.now before failed.entry.faults.now place }
{
    let wire = place.wire.0 as usize;
    match failed.plan.wires.get(wire) {
        Some(_) => Spoke {
            priority: number_after(wire, failed.faults, failed.ground.numbers[wire]),
            usable: sound[wire],
        },
        None => Spoke {
            priority: number_after(wire, failed.faults, 0),
            usable: false,
        },
    }
}

// The spokes of an edge as its choice would see them.
fn fill_spokes(
    spokes: &mut Vec<Spoke>,
    failed: FailedGround<'_>,
    sound: &[bool],
    places: &[EndPlace],
) -> Result<(), NoMemory>
    ghost before: { NetworkState }
    requires ground { IsGroundOf failed.plan.now before failed.ground.now }
    requires sound { IsFilled (would_be_sound failed.plan.now before failed.faults.now) false (length failed.plan.now.wires) sound.now }
    ensures { OnOk result (spokes.new.items ≡ map (spoke_by failed.entry.plan.now before failed.entry.faults.now) places.now) }
{
    spokes.truncate(0);
    for place in places {
        spokes.push(spoke_at(failed, sound, *place))?;
    }
    Ok(())
}

// The last edge of the wire of an end.
#[tactic(auto, using(crate::proofs::HomeLemmas::last_few))]
fn last_edge(plan: &Plan, place: EndPlace) -> Option<EdgeId>
    requires { IsChecked plan.now }
    ensures last { place_of result ≡ last_of (wire_row plan.now place.wire) }
    ensures few { IfSome result (λ edge. edge.0 < 64) }
{
    match plan.wires.get(place.wire.0 as usize) {
        Some(row) => last_of(row.path.as_slice()),
        None => None,
    }
}

// The core edge of a spoke edge with these spokes.
fn home_among(plan: &Plan, spokes: &[Spoke], places: &[EndPlace]) -> Option<EdgeId>
    requires checked { IsChecked plan.now }
    requires all { length spokes.now ≡ length places.now }
    ensures home { place_of result ≡ home_among plan.now spokes.now places.now }
    ensures few { IfSome result (λ edge. edge.0 < 64) }
{
    match choose(spokes) {
        Some(place) => match places.get(place) {
            Some(place) => last_edge(plan, *place),
            None => None,
        },
        None => None,
    }
}

// Adds two edges, where they are two of at most 64.
fn join_edges(pairs: &mut EdgePairs, a: Option<EdgeId>, b: Option<EdgeId>)
    ensures { (i j : ℕ) → i < 64 → j < 64 → has_pair pairs.new i j ≡ ((are_named i j a b || are_named i j b a) || has_pair pairs.old i j) }
{
    if let (Some(a), Some(b)) = (a, b) {
        if a.0 < 64 && b.0 < 64 {
            pairs.join(a.0 as usize, b.0 as usize);
        }
    }
}

// Whether a wire is a mesh wire of the service.
fn is_mesh_of(service: ServiceId, row: &WirePlan) -> bool
    ensures { result ≡ is_mesh_of service row.now }
{
    row.service.0 == service.0 && row.class == Class::Mesh
}

// Adds the terminal edges of a wire, where it is a mesh wire of the service and would be sound.
#[tactic(auto, using(crate::proofs::MeshLemmas::mesh_steps))]
fn join_mesh(pairs: &mut EdgePairs, service: ServiceId, row: &WirePlan, sound: bool)
    ensures { (a b : ℕ) → a < 64 → b < 64 → has_pair pairs.new a b ≡ ((mesh_row service a b row.now && sound) || has_pair pairs.old a b) }
{
    if sound && is_mesh_of(service, row) {
        join_edges(
            pairs,
            first_of(row.path.as_slice()),
            last_of(row.path.as_slice()),
        );
    }
}

// The pairs of edges that would be meshed.
#[tactic(auto, using(crate::proofs::MeshLemmas::meshes_none, crate::proofs::MeshLemmas::meshes_more, crate::proofs::MeshLemmas::meshes_end))]
fn meshes(plan: &Plan, sound: &[bool], service: ServiceId) -> EdgePairs
    ghost test: { ℕ → Bool }
    requires { IsFilled test false (length plan.now.wires) sound.now }
    ensures { AreMeshes plan.now test service result }
{
    let mut pairs = EdgePairs::none();
    let wires = plan.wires.as_slice();
    for wire in 0..wires.len() {
        join_mesh(&mut pairs, service, &wires[wire], sound[wire]);
    }
    pairs
}

impl Reaching {
    /// Room for any plan.
    pub fn new(alloc: Global) -> Reaching {
        Reaching {
            sound: Vec::new(alloc),
            spokes: Vec::new(alloc),
            cores: Vec::new(alloc),
        }
    }

    /// Lets faults befall the ground.
    #[tactic(auto, using(crate::proofs::RowLemmas::filled_none, crate::proofs::RowLemmas::filled_more))]
    pub fn befall(&mut self, failed: FailedGround<'_>) -> Result<(), NoMemory>
        ghost before: { NetworkState }
        requires { IsGroundOf failed.plan.now before failed.ground.now }
        ensures { OnOk result (HasBefallen failed.entry.plan.now before failed.entry.faults.now self.new) }
    {
        self.sound.truncate(0);
        for wire in 0..failed.plan.wires.len() {
            self.sound.push(would_be_sound(failed, wire))?;
        }
        Ok(())
    }

    // The core edge of a spoke edge with these spokes.
    #[tactic(auto, using(crate::proofs::GroundLemmas::home_by))]
    fn home(
        &mut self,
        failed: FailedGround<'_>,
        service: ServiceId,
        edge: usize,
        places: &[EndPlace],
    ) -> Result<Option<EdgeId>, NoMemory>
        ghost before: { NetworkState }
        requires checked { IsChecked failed.plan.now }
        requires ground { IsGroundOf failed.plan.now before failed.ground.now }
        requires sound { HasBefallen failed.plan.now before failed.faults.now self.old }
        requires places { places.now ≡ spokes_at failed.plan.now service edge }
        ensures home { IfOk result (λ core. place_of core ≡ would_home failed.entry.plan.now before failed.entry.faults.now service edge) }
        ensures few { IfOk result (λ core. IfSome core (λ edge. edge.0 < 64)) }
        ensures sound { self.new.sound.items ≡ self.old.sound.items }
        ensures cores { self.new.cores.items ≡ self.old.cores.items }
    {
        fill_spokes(&mut self.spokes, failed, self.sound.as_slice(), places)?;
        Ok(home_among(failed.plan, self.spokes.as_slice(), places))
    }

    // The core edge of an edge: itself, where it starts no spokes.
    fn core(
        &mut self,
        failed: FailedGround<'_>,
        shape: &Shape,
        edge: usize,
    ) -> Result<Option<EdgeId>, NoMemory>
        ghost before: { NetworkState }
        requires checked { IsChecked failed.plan.now }
        requires ground { IsGroundOf failed.plan.now before failed.ground.now }
        requires sound { HasBefallen failed.plan.now before failed.faults.now self.old }
        requires shape { IsShapeOf failed.plan.now shape.now.service shape.now }
        requires edge { edge < length failed.plan.now.edges }
        ensures core { IfOk result (λ core. place_of core ≡ would_core failed.entry.plan.now before failed.entry.faults.now shape.now.service edge) }
        ensures few { IfOk result (λ core. IfSome core (λ edge. edge.0 < 64)) }
        ensures sound { self.new.sound.items ≡ self.old.sound.items }
        ensures cores { self.new.cores.items ≡ self.old.cores.items }
    {
        if !shape.starts.as_slice()[edge] {
            return Ok(Some(EdgeId(edge as u16)));
        }
        match shape.spokes.get(edge) {
            Some(places) => self.home(failed, shape.service, edge, places.as_slice()),
            None => Ok(None),
        }
    }

    // The core edge of each edge.
    #[tactic(auto, using(crate::proofs::RowLemmas::cores_none, crate::proofs::RowLemmas::cores_more))]
    fn fill_cores(&mut self, failed: FailedGround<'_>, shape: &Shape) -> Result<(), NoMemory>
        ghost before: { NetworkState }
        requires checked { IsChecked failed.plan.now }
        requires ground { IsGroundOf failed.plan.now before failed.ground.now }
        requires sound { HasBefallen failed.plan.now before failed.faults.now self.old }
        requires shape { IsShapeOf failed.plan.now shape.now.service shape.now }
        ensures cores { OnOk result (AreCores failed.entry.plan.now before failed.entry.faults.now shape.now.service (length failed.entry.plan.now.edges) self.new.cores.items) }
        ensures sound { self.new.sound.items ≡ self.old.sound.items }
    {
        self.cores.truncate(0);
        for edge in 0..failed.plan.edges.len() {
            let core = self.core(failed, shape, edge)?;
            self.cores.push(core)?;
        }
        Ok(())
    }

    /// Whom each edge would reach in a service, under the faults that have befallen the ground.
    #[tactic(auto, using(crate::proofs::HomeLemmas::reached))]
    pub fn of(&mut self, failed: FailedGround<'_>, shape: &Shape) -> Result<EdgePairs, NoMemory>
        ghost before: { NetworkState }
        requires checked { IsChecked failed.plan.now }
        requires ground { IsGroundOf failed.plan.now before failed.ground.now }
        requires befallen { HasBefallen failed.plan.now before failed.faults.now self.old }
        requires shape { IsShapeOf failed.plan.now shape.now.service shape.now }
        ensures reach { IfOk result (λ pairs. (a b : ℕ) → has_pair pairs a b ≡ reaches failed.entry.plan.now before failed.entry.faults.now shape.now.service a b) }
        ensures befallen { HasBefallen failed.entry.plan.now before failed.entry.faults.now self.new }
    {
        self.fill_cores(failed, shape)?;
        let meshes = meshes(failed.plan, self.sound.as_slice(), shape.service);
        Ok(rows(&meshes, self.cores.as_slice()))
    }
}
