//! The spokes of a spoke edge, and which of them it has chosen.
ghost use Rattle.std.specs.Prelude.{◌≡◌, ◌≤◌, ◌<◌, ◌++◌, ◌∷◌, [], None, Some, true, length, map, not, replicate, slice_set, if◌then◌else◌, IfOk, OnOk};
ghost use Rattle.net_base.specs.{plan.Accepted.{IsChecked}, plan.Paths.{is_first}, plan.Places.{is_mesh_class, wire_row}};
ghost use Rattle.edge_model.specs.{EndPlaces.{end_places}, Spokes.{is_spoke_row}, Wire.{is_own_spoke}};
ghost use Rattle.provider_edge.specs.Spokes.{AreSlots, IsNewSpokes, slots_for, slots_in, unchosen};
ghost use Rattle.edge_forwarding.specs.Views.{view};

use edge_model::EndPlace;
use net_base::{Class, EdgeId, List, NoMemory, Plan, ServiceId, WireId, WirePlan};
use std::alloc::Global;
use std::marker::Model;

/// For each service the slots of an edge's ends of the spokes that start at it, in the order of the wires, and the wire of the one
/// that is chosen (RFC 4762 section 10.1, RFC 6870). Contracts see lists by the plan's services.
#[derive(Drop)]
pub struct Spokes {
    slots: Vec<List<usize>>,
    chosen: Vec<Option<WireId>>,
}

impl Model for Spokes {
    ghost use Rattle.provider_edge.specs.Spokes.{SpokeLists};

    ghost Value = { SpokeLists };

    ghost view = { λ s. record { slots = s.slots.items; chosen = s.chosen.items } };
}

impl Spokes {
    /// The spokes that start at an edge whose ends have these places; none is chosen.
    pub fn open(
        alloc: Global,
        plan: &Plan,
        me: EdgeId,
        places: &[EndPlace],
    ) -> Result<Spokes, NoMemory>
        requires checked { IsChecked plan.now }
        requires places { places.now ≡ end_places plan.now me }
        ensures { IfOk result (λ spokes. IsNewSpokes plan.now me spokes) }
    {
        let slots = all_slots(alloc, plan, me, places)?;
        let chosen = none_chosen(alloc, plan.services.len())?;
        Ok(Spokes { slots, chosen })
    }

    /// The wire of the spoke that is chosen for a service.
    pub fn chosen(&self, service: ServiceId) -> Option<WireId>
        ensures { result ≡ view None self.now.chosen service.0 }
    {
        match self.chosen.get(service.0 as usize) {
            Some(chosen) => *chosen,
            None => None,
        }
    }

    /// Whether this wire, or none, is that of the spoke that is chosen for a service.
    pub fn has_choice(&self, service: usize, wire: Option<WireId>) -> bool
        requires { service < length self.now.chosen }
        ensures { result ≡ true → view None self.now.chosen service ≡ wire }
    {
        self.chosen[service] == wire
    }

    /// The slots of the edge's ends of the spokes of a service that start at it.
    pub fn slots(&self, service: usize) -> &[usize]
        requires { service < length self.now.slots }
        ensures { result.now ≡ slots_in self.now service }
    {
        self.slots[service].as_slice()
    }

    /// The wires of the spokes that are chosen, by services.
    pub fn all_chosen(&self, alloc: Global) -> Result<Vec<Option<WireId>>, NoMemory>
        ensures { IfOk result (λ chosen. chosen.items ≡ self.now.chosen) }
    {
        Ok(Vec::from_slice(alloc, self.chosen.as_slice())?)
    }

    /// Whether these are the wires of the spokes that are chosen, by services.
    pub fn are_chosen(&self, chosen: &[Option<WireId>]) -> bool
        ensures { result ≡ true → chosen.now ≡ self.now.chosen }
    {
        chosen == self.chosen.as_slice()
    }

    /// This spoke, or none, is chosen for a service.
    pub fn choose(&mut self, service: usize, chosen: Option<WireId>)
        requires { service < length self.old.chosen }
        ensures { self.new ≡ record self.old { chosen = slice_set self.old.chosen service chosen } }
    {
        self.chosen[service] = chosen;
    }

    /// None is chosen for any service.
    pub fn clear(&mut self)
        ensures { self.new ≡ record self.old { chosen = map unchosen self.old.chosen } }
    {
        clear_all(&mut self.chosen);
    }
}

/// The priority number of each wire by the plan.
#[tactic(auto, using(crate::proofs::SpokeLemmas::priorities_next, crate::proofs::SpokeLemmas::priorities_end))]
pub fn priorities(alloc: Global, plan: &Plan) -> Result<Vec<u8>, NoMemory>
    ensures { IfOk result (λ priorities. priorities.items ≡ map (λ row. row.priority) plan.now.wires) }
{
    let rows = plan.wires.as_slice();
    let mut priorities = Vec::with_capacity(alloc, rows.len())?;
    for place in 0..rows.len() {
        priorities.push(rows[place].priority)?;
    }
    Ok(priorities)
}

// No spoke is chosen any more.
#[tactic(auto, using(crate::proofs::SpokeLemmas::unchosen_next))]
fn clear_all(chosen: &mut Vec<Option<WireId>>)
    ensures { chosen.new.items ≡ map unchosen chosen.old.items }
{
    for kept in chosen.iter_mut() {
        *kept = None;
    }
}

// No spoke is chosen for so many services.
fn none_chosen(alloc: Global, count: usize) -> Result<Vec<Option<WireId>>, NoMemory>
    ensures { IfOk result (λ chosen. chosen.items ≡ replicate count None) }
{
    Ok(vec![in alloc; None; count]?)
}

// The slots of the ends of spokes that start at an edge, by services.
#[tactic(auto, using(crate::proofs::SpokeLemmas::slots_none, crate::proofs::SpokeLemmas::slots_more))]
fn all_slots(
    alloc: Global,
    plan: &Plan,
    me: EdgeId,
    places: &[EndPlace],
) -> Result<Vec<List<usize>>, NoMemory>
    requires { length plan.now.services ≤ 64 }
    ensures { IfOk result (λ slots. AreSlots plan.now me places.now (length plan.now.services) slots.items) }
{
    let mut slots = Vec::with_capacity(alloc, plan.services.len())?;
    for service in 0..plan.services.len() {
        slots.push(slots_for(alloc, plan, me, places, ServiceId(service as u16))?)?;
    }
    Ok(slots)
}

// The slots of those ends of a service.
#[tactic(auto, using(crate::proofs::SpokeLemmas::slots_next, crate::proofs::SpokeLemmas::slots_end))]
fn slots_for(
    alloc: Global,
    plan: &Plan,
    me: EdgeId,
    places: &[EndPlace],
    service: ServiceId,
) -> Result<List<usize>, NoMemory>
    ensures { IfOk result (λ slots. slots ≡ slots_for plan.now me places.now service.0) }
{
    let mut slots = List::new(alloc);
    for slot in 0..places.len() {
        let starts = starts_spoke(plan, me, service, places[slot].wire);
        push_where(&mut slots, slot, starts)?;
    }
    Ok(slots)
}

// Adds a slot where its end is such.
fn push_where(slots: &mut List<usize>, slot: usize, starts: bool) -> Result<(), NoMemory>
    ensures { OnOk result (slots.new ≡ slots.old ++ (if starts then slot ∷ [] else [])) }
{
    if starts {
        slots.push(slot)?;
    }
    Ok(())
}

/// Whether a wire is a spoke that starts at the edge.
pub fn is_own_spoke(row: &WirePlan, me: EdgeId) -> bool
    ensures { result ≡ is_own_spoke me (Some row.now) }
{
    is_spoke(row.class) && is_first(row.path.as_slice(), me)
}

// Whether the edge starts the wire as a spoke of the service.
fn starts_spoke(plan: &Plan, me: EdgeId, service: ServiceId, wire: WireId) -> bool
    ensures { result ≡ is_spoke_row service me (wire_row plan.now wire) }
{
    match plan.wires.get(wire.0 as usize) {
        Some(row) => {
            row.service == service && is_spoke(row.class) && is_first(row.path.as_slice(), me)
        }
        None => false,
    }
}

// Whether a wire is a spoke.
fn is_spoke(class: Class) -> bool
    ensures { result ≡ not (is_mesh_class class) }
{
    match class {
        Class::Spoke => true,
        Class::Mesh => false,
    }
}

/// Whether a path starts at the edge.
pub fn is_first(path: &[EdgeId], edge: EdgeId) -> bool
    ensures { result ≡ is_first edge.0 path.now }
{
    match path {
        [first, ..] => edge == *first,
        [] => false,
    }
}
