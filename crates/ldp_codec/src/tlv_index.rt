//! The TLVs of a message, each found once.
ghost use Rattle.std.specs.Prelude.{◌≡◌, ◌≤◌, ◌<◌, ◌==◌, ℕ, List, IfSome, length, drop, option_copied};
ghost use Rattle.net_values.specs.declared.field.Field.{Field};
ghost use Rattle.ldp_grammar.specs.{Rows.{row_of}, Tlvs.{Tlv, IsJoined, count_of, first_unknown, unknown_in, value_of}};
ghost use Rattle.ldp_codec.specs.{TlvIndex.{AreKept, AreWhole, IsWhole, beginning, front_value}, Views.{AreSound}};

use crate::field_set::place_of;
use crate::numbers::two;
use crate::tlv::{TYPE_LIMIT, split_tlv};
use crate::tlv_search::find_value;
use ldp_grammar::{MessageKind, TLV_HEADER, TlvPart, U_BIT, field_of_type};
use std::marker::Model;

// The place of no TLV.
const ABSENT: u16 = 65535;

/// The TLVs of a message, with the places where the first one of each field begins. Contracts see the octets that they are.
#[derive(Drop)]
pub struct TlvIndex<'a> {
    octets: &'a [u8],
    places: [u16; 12],
}

impl<'a> Model for TlvIndex<'a> {
    ghost use Rattle.std.specs.Prelude.{List, ℕ};
    ghost use Rattle.ldp_codec.specs.TlvIndex.{AreFirst, AreWhole};

    ghost Value = { List ℕ };

    ghost view = { λ t. t.octets.now };

    ghost invariant = { λ t. AreFirst t.octets.now t.places × AreWhole t.octets.now t.places };
}

// The value of the TLV in front, which stands there whole.
fn value_in_front(rest: &[u8]) -> &[u8]
    requires { IsWhole rest.now }
    ensures value { result.now ≡ front_value rest.now }
    ensures few { length result.now ≤ 65535 }
{
    let len = two(rest, 2) as usize;
    let (_, body) = rest.split_at(TLV_HEADER);
    let (value, _) = body.split_at(len);
    value
}

impl<'a> TlvIndex<'a> {
    /// The value of the first TLV of a type. One of a type that is no field's is looked for.
    pub fn value(&self, tlv: u16) -> Option<&'a [u8]>
        ensures value { (ts : List Tlv) → IsJoined self.now ts → option_copied result ≡ value_of tlv ts }
        ensures few { IfSome result (λ value. length value.now ≤ 65535) }
    {
        let Some(field) = field_of_type(tlv) else {
            return find_value(tlv, self.octets);
        };
        let at = self.places[place_of(field)];
        if at == ABSENT {
            return None;
        }
        let (_, rest) = self.octets.split_at(at as usize);
        Some(value_in_front(rest))
    }

    /// The octets that they are.
    pub fn octets(&self) -> &'a [u8]
        ensures { result.now ≡ self.now }
    {
        self.octets
    }

    /// Whether there is no TLV of a type.
    #[tactic(auto, using(crate::proofs::IndexLemmas::lacks_some, crate::proofs::IndexLemmas::lacks_none))]
    pub fn lacks(&self, tlv: u16) -> bool
        ensures { (ts : List Tlv) → IsJoined self.now ts → result ≡ (count_of tlv ts == 0) }
    {
        match self.value(tlv) {
            Some(_) => false,
            None => true,
        }
    }
}

// The type of the TLV with this word, where it is unknown in the message and not to be ignored.
fn unknown(kind: MessageKind, word: u16) -> Option<u16>
    ensures { result ≡ unknown_in (row_of kind) word }
{
    match kind.part(word % TYPE_LIMIT) {
        TlvPart::Unknown if word < U_BIT => Some(word % TYPE_LIMIT),
        _ => None,
    }
}

// The place of no TLV for each field.
fn no_places() -> [u16; 12]
    ensures { (field : Field) → beginning result field ≡ 65535 }
{
    [ABSENT; 12]
}

// Keeps the place of a TLV of this type, where it is the first one of its field.
#[tactic(auto, using(crate::proofs::IndexLemmas::kept_place))]
fn keep(places: &mut [u16; 12], tlv: u16, at: u16)
    ensures kept { AreKept places.old places.new tlv at }
    ensures whole { (octets : List ℕ) → IsWhole (drop at octets) → AreWhole octets places.old → AreWhole octets places.new }
{
    if let Some(field) = field_of_type(tlv) {
        let place = place_of(field);
        if places[place] == ABSENT {
            places[place] = at;
        }
    }
}

/// The TLVs that the octets are, and the type of the first that is unknown in the message and not to be ignored.
#[tactic(auto, using(crate::proofs::IndexLemmas::index_none, crate::proofs::IndexLemmas::none_whole, crate::proofs::IndexLemmas::index_all, crate::proofs::IndexLemmas::unknown_all))]
pub fn index_tlvs(kind: MessageKind, octets: &[u8]) -> (Option<u16>, TlvIndex<'_>)
    requires sound { AreSound (row_of kind) octets.now }
    requires few { length octets.now < 65535 }
    ensures octets { result.1 ≡ octets.now }
    ensures first { (ts : List Tlv) → IsJoined octets.now ts → result.0 ≡ first_unknown (row_of kind) ts }
{
    let mut first = None;
    let mut places = no_places();
    let mut at = 0;
    'indexing: while at < octets.len() {
        let (_, rest) = octets.split_at(at);
        let Some((word, value, _)) = split_tlv(rest) else {
            unreachable!()
        };
        first = first.or(unknown(kind, word));
        keep(&mut places, word % TYPE_LIMIT, at as u16);
        at += TLV_HEADER + value.len();
    }
    (first, TlvIndex { octets, places })
}
