//! Sets of TLVs by their fields.
ghost use Rattle.std.specs.Prelude.{◌≡◌, ◌<◌, true, false};
ghost use Rattle.net_values.specs.declared.field.Field.{Field as FieldOf};
ghost use Rattle.ldp_codec.specs.FieldSet.{has, place_of_field};

use net_values::Field;
use std::marker::Model;

/// A set of TLVs by their fields. Contracts ask of it by `has` whether a field is in it.
#[derive(Clone, Copy)]
pub struct FieldSet {
    places: [bool; 12],
}

impl Model for FieldSet {
    ghost use Rattle.std.specs.Prelude.{List, Bool};

    ghost Value = { List Bool };

    ghost view = { λ s. s.places };

    ghost inverse = { λ places. record { places = places } };
}

/// The place of a field.
pub fn place_of(field: Field) -> usize
    ensures place { result ≡ place_of_field field }
    ensures within { result < 12 }
{
    match field {
        Field::Fec => 0,
        Field::AddressList => 1,
        Field::Label => 2,
        Field::Status => 3,
        Field::Hello => 4,
        Field::Transport => 5,
        Field::MacList => 6,
        Field::Session => 7,
        Field::RequestId => 8,
        Field::PwStatus => 9,
        Field::Point => 10,
        _ => 11,
    }
}

impl FieldSet {
    /// The set without a field.
    pub fn empty() -> FieldSet
        ensures none { (field : FieldOf) → has result field ≡ false }
    {
        FieldSet {
            places: [false; 12],
        }
    }

    /// Whether a field is in the set.
    pub fn contains(&self, field: Field) -> bool
        ensures { result ≡ has self.now field }
    {
        self.places[place_of(field)]
    }

    /// Puts a field into the set.
    #[tactic(auto, using(crate::proofs::FieldSetLemmas::has_put, crate::proofs::FieldSetLemmas::has_kept))]
    pub fn insert(&mut self, field: Field)
        ensures it { has self.new field ≡ true }
        ensures kept { (other : FieldOf) → has self.new other ≡ false → has self.old other ≡ false }
    {
        let place = place_of(field);
        self.places[place] = true;
    }
}
