//! A scenario's fault in words.
ghost use Rattle.std.specs.Prelude.{◌≡◌, ◌++◌, ◌∷◌, map, OnOk};
ghost use Rattle.command_text.specs.Places.{masked};
ghost use Rattle.vplsnet.specs.FaultText.{table_name, place_words, plan_fault_name, plan_fault_place, fault_words};
ghost use Rattle.text_pieces.specs.Pieces.{spaced};

use command_text::mask;
use net_base::{NoMemory, Place, PlanFault, Table};
use scenario_text::ScenarioFault;
use text_pieces::{put_number_word, put_text, put_word};

/// Adds the fault's name and its fields in order, with a blank before each.
pub fn put_fault(text: &mut Vec<u8>, fault: ScenarioFault) -> Result<(), NoMemory>
    ensures { OnOk result (text.new.items ≡ text.old.items ++ spaced (fault_words fault)) }
{
    match fault {
        ScenarioFault::NotToml => put_word(text, b"NotToml"),
        ScenarioFault::Missing(place) => put_placed(text, b"Missing", &place),
        ScenarioFault::WrongKind(place) => put_placed(text, b"WrongKind", &place),
        ScenarioFault::UnknownKey(place) => put_placed(text, b"UnknownKey", &place),
        ScenarioFault::BadWord { event, word } => {
            put_word(text, b"BadWord")?;
            put_number_word(text, u64::from(event))?;
            put_number_word(text, u64::from(word))
        }
        ScenarioFault::TooMany { table, limit } => {
            put_word(text, b"TooMany")?;
            put_word(text, table_text(table).as_bytes())?;
            put_number_word(text, u64::from(limit))
        }
        ScenarioFault::Version => put_word(text, b"Version"),
        ScenarioFault::Plan(fault) => {
            put_word(text, b"Plan")?;
            put_placed(text, plan_fault_text(&fault).as_bytes(), place_of(&fault))
        }
        ScenarioFault::NoMemory => put_word(text, b"out of memory"),
    }
}

// Adds a fault's name and its place: the table, the row and the key.
fn put_placed(text: &mut Vec<u8>, name: &[u8], place: &Place) -> Result<(), NoMemory>
    ensures { OnOk result (text.new.items ≡ text.old.items ++ spaced (name.now ∷ place_words place.now)) }
{
    put_word(text, name)?;
    put_word(text, table_text(place.table).as_bytes())?;
    put_number_word(text, u64::from(place.index))?;
    put_text(text, b" ")?;
    put_printed(text, place.key.as_slice())
}

// Adds the octets, with `?` for what cannot be printed.
fn put_printed(text: &mut Vec<u8>, octets: &[u8]) -> Result<(), NoMemory>
    ensures { OnOk result (text.new.items ≡ text.old.items ++ map masked octets.now) }
{
    for octet in octets {
        text.push(mask(*octet))?;
    }
    Ok(())
}

fn table_text(table: Table) -> &'static str
    ensures { result.now ≡ table_name table }
{
    match table {
        Table::Top => "top",
        Table::Events => "events",
        Table::Edge => "edge",
        Table::Service => "service",
        Table::Group => "group",
        Table::Circuit => "circuit",
        Table::Wire => "wire",
        Table::Near => "near",
        Table::Far => "far",
    }
}

fn plan_fault_text(fault: &PlanFault) -> &'static str
    ensures { result.now ≡ plan_fault_name fault.now }
{
    match fault {
        PlanFault::UnknownName(_) => "UnknownName",
        PlanFault::RepeatedName(_) => "RepeatedName",
        PlanFault::RepeatedPwId(_) => "RepeatedPwId",
        PlanFault::TwoMeshWires(_) => "TwoMeshWires",
        PlanFault::SpokeInMesh(_) => "SpokeInMesh",
        PlanFault::PathTooLong(_) => "PathTooLong",
        PlanFault::PathRepeats(_) => "PathRepeats",
        PlanFault::OutOfRange(_) => "OutOfRange",
    }
}

fn place_of(fault: &PlanFault) -> &Place
    ensures { result.now ≡ plan_fault_place fault.now }
{
    match fault {
        PlanFault::UnknownName(place)
        | PlanFault::RepeatedName(place)
        | PlanFault::RepeatedPwId(place)
        | PlanFault::TwoMeshWires(place)
        | PlanFault::SpokeInMesh(place)
        | PlanFault::PathTooLong(place)
        | PlanFault::PathRepeats(place)
        | PlanFault::OutOfRange(place) => place,
    }
}
