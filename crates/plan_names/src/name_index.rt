//! Names by which their places are found.
ghost use Rattle.std.specs.{Prelude.{◌≡◌, ◌<◌, ◌≤◌, [], not, length, take, get_or, IfOk, IfSome}, List.{list_any}, Str.{bytes_eq}};
ghost use Rattle.net_base.specs.plan.Faults.{first_clash};
ghost use Rattle.plan_names.specs.Names.{place_in, are_distinct, FindsNames};

use indexmap::IndexMap;
use net_base::{Name, NoMemory};
use std::alloc::Global;
use std::marker::Model;

/// Names in order, in which a name's first place is found without a walk over them. Contracts see it as the
/// list of the names.
#[derive(Drop)]
pub struct NameIndex<'a> {
    names: &'a [Name],
    places: IndexMap<&'a [u8], u16>,
}

impl<'a> Model for NameIndex<'a> {
    ghost use Rattle.std.specs.Prelude.{List, ℕ};
    ghost use Rattle.plan_names.specs.Names.{FindsNames};

    ghost Value = { List (List ℕ) };

    ghost view = { λ i. i.names.now };

    ghost invariant = { λ i. FindsNames i.names.now i.places.entries };
}

impl<'a> NameIndex<'a> {
    /// The names in order. One may stand more than once.
    pub fn of(alloc: Global, names: &'a [Name]) -> Result<NameIndex<'a>, NoMemory>
        requires { length names.now ≤ 2048 }
        ensures { IfOk result (λ index. index ≡ names.now) }
    {
        let places = places_of(alloc, names)?;
        Ok(NameIndex { names, places })
    }

    /// The first place of a name; `None` exactly where it is not among the names.
    pub fn place(&self, name: &[u8]) -> Option<u16>
        ensures place { result ≡ place_in self.now name.now }
        ensures within { IfSome result (λ place. place < length self.now) }
    {
        self.first_place(name)
    }

    /// The place of the first name that stood before.
    pub fn first_repeat(&self) -> Option<usize>
        ensures place { result ≡ first_clash bytes_eq self.now }
        ensures within { IfSome result (λ place. place < length self.now) }
    {
        first_again(self.names, &self.places)
    }

    /// Whether each name stands once.
    pub fn are_distinct(&self) -> bool
        ensures { result ≡ are_distinct self.now }
    {
        self.first_repeat().is_none()
    }

    // The place that the map gives a name.
    fn first_place(&self, name: &[u8]) -> Option<u16>
        ensures { result ≡ place_in self.now name.now }
    {
        match self.places.get(name) {
            Some(place) => Some(*place),
            None => None,
        }
    }
}

// The first place of each name. A later place is put in first, and gives way.
fn places_of<'a>(alloc: Global, names: &'a [Name]) -> Result<IndexMap<&'a [u8], u16>, NoMemory>
    requires { length names.now ≤ 2048 }
    ensures { IfOk result (λ places. FindsNames names.now places.entries) }
{
    let mut places = IndexMap::with_capacity(alloc, names.len())?;
    let mut at = names.len();
    'placing: while at > 0 {
        at -= 1;
        places.insert(names[at].as_slice(), at as u16)?;
    }
    Ok(places)
}

// The place of the first name that stood before, where the map gives each its first place.
fn first_again(names: &[Name], places: &IndexMap<&[u8], u16>) -> Option<usize>
    requires { FindsNames names.now places.now.entries }
    ensures place { result ≡ first_clash bytes_eq names.now }
    ensures within { IfSome result (λ place. place < length names.now) }
{
    for (at, _name) in names.iter().enumerate() {
        if !is_first(names, places, at) {
            return Some(at);
        }
    }
    None
}

// Whether the name at a place stands nowhere before it.
fn is_first(names: &[Name], places: &IndexMap<&[u8], u16>, at: usize) -> bool
    requires finds { FindsNames names.now places.now.entries }
    requires within { at < length names.now }
    ensures { result ≡ not (list_any (λ old. bytes_eq old (get_or names.now at [])) (take at names.now)) }
{
    match places.get(names[at].as_slice()) {
        Some(place) => *place as usize == at,
        None => false,
    }
}
