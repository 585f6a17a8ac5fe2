//! The parts of a message that are about pseudowires, each with a blank before it.
ghost use Rattle.std.specs.Prelude.{◌≡◌, ◌++◌, codes, OnOk};
ghost use Rattle.text_pieces.specs.Pieces.{spaced};
ghost use Rattle.message_text.specs.Words.{description_words, element_word, end_word, fec_words, label_words, macs_words, parameter_words, point_word, point_words, pw_status_words, segment_word, told_fec_words, vccv_words};

use crate::pieces::{bit, put_address, put_told, put_told_numbers};
use net_values::{Addr, Label, List, Mac, NoMemory, Text};
use pw_tlvs::{Point, Points, PwFec, PwStatus};
use text_pieces::{put_digits, put_number, put_text};

// Adds a FEC element.
fn put_element(text: &mut Vec<u8>, fec: &PwFec) -> Result<(), NoMemory>
    ensures { OnOk result (text.new.items ≡ text.old.items ++ (codes " " ++ element_word fec.now)) }
{
    let c = bit(fec.c);
    let kind = u32::from(fec.kind);
    match fec.pw_id {
        Some(pw_id) => put_told_numbers(text, b"fec=", c, &[kind, fec.group, pw_id]),
        None => {
            put_told_numbers(text, b"fec=", c, &[kind, fec.group])?;
            put_text(text, b"/*")
        }
    }
}

// Adds a number of 16 bits under its name, where it is told.
fn put_parameter(text: &mut Vec<u8>, name: &[u8], number: Option<u16>) -> Result<(), NoMemory>
    ensures { OnOk result (text.new.items ≡ text.old.items ++ spaced (parameter_words name.now number)) }
{
    match number {
        Some(number) => put_told(text, name, u64::from(number)),
        None => Ok(()),
    }
}

// Adds a description that is not empty.
fn put_description(text: &mut Vec<u8>, description: &Text<80>) -> Result<(), NoMemory>
    ensures { OnOk result (text.new.items ≡ text.old.items ++ spaced (description_words description.now)) }
{
    if description.len() == 0 {
        return Ok(());
    }
    put_text(text, b" description=")?;
    put_digits(text, description.as_slice())
}

// Adds what VCCV can do, where it is told.
fn put_vccv(text: &mut Vec<u8>, vccv: Option<(u8, u8)>) -> Result<(), NoMemory>
    ensures { OnOk result (text.new.items ≡ text.old.items ++ spaced (vccv_words vccv)) }
{
    match vccv {
        Some((channels, checks)) => put_told_numbers(
            text,
            b"vccv=",
            u32::from(channels),
            &[u32::from(checks)],
        ),
        None => Ok(()),
    }
}

/// Adds a FEC element and its interface parameters.
pub fn put_fec(text: &mut Vec<u8>, fec: &PwFec) -> Result<(), NoMemory>
    ensures { OnOk result (text.new.items ≡ text.old.items ++ spaced (fec_words fec.now)) }
{
    put_element(text, fec)?;
    put_parameter(text, b"mtu=", fec.params.mtu)?;
    put_description(text, &fec.params.description)?;
    put_parameter(text, b"vlan=", fec.params.vlan)?;
    put_vccv(text, fec.params.vccv)
}

/// Adds a FEC element and its interface parameters, where there is one.
pub fn put_told_fec(text: &mut Vec<u8>, fec: &Option<PwFec>) -> Result<(), NoMemory>
    ensures { OnOk result (text.new.items ≡ text.old.items ++ spaced (told_fec_words fec.now)) }
{
    match fec {
        Some(fec) => put_fec(text, fec),
        None => Ok(()),
    }
}

/// Adds a label, where there is one.
pub fn put_told_label(text: &mut Vec<u8>, label: Option<Label>) -> Result<(), NoMemory>
    ensures { OnOk result (text.new.items ≡ text.old.items ++ spaced (label_words label)) }
{
    match label {
        Some(label) => put_told(text, b"label=", u64::from(label.number())),
        None => Ok(()),
    }
}

/// Adds the status of a pseudowire, where it is told.
pub fn put_pw_status(text: &mut Vec<u8>, status: Option<PwStatus>) -> Result<(), NoMemory>
    ensures { OnOk result (text.new.items ≡ text.old.items ++ spaced (pw_status_words status)) }
{
    match status {
        Some(status) => put_told(text, b"status=", u64::from(status.0)),
        None => Ok(()),
    }
}

/// Adds how many MAC addresses a list has and their digits, where there is one.
pub fn put_macs(text: &mut Vec<u8>, macs: &Option<List<Mac>>) -> Result<(), NoMemory>
    ensures { OnOk result (text.new.items ≡ text.old.items ++ spaced (macs_words macs.now)) }
{
    let Some(list) = macs else {
        return Ok(());
    };
    let listed = list.as_slice();
    put_told(text, b"macs=", listed.len() as u64)?;
    text.push(b'/')?;
    for mac in listed {
        put_digits(text, &mac.0)?;
    }
    Ok(())
}

// Begins a switching point by its PW ID, or a dash.
fn put_segment(text: &mut Vec<u8>, pw_id: Option<u32>) -> Result<(), NoMemory>
    ensures { OnOk result (text.new.items ≡ text.old.items ++ (codes " point=" ++ segment_word pw_id)) }
{
    match pw_id {
        Some(pw_id) => {
            put_text(text, b" point=")?;
            put_number(text, u64::from(pw_id))
        }
        None => put_text(text, b" point=-"),
    }
}

// Adds a slash and an address of a switching point, or a dash.
fn put_end(text: &mut Vec<u8>, address: Option<Addr>) -> Result<(), NoMemory>
    ensures { OnOk result (text.new.items ≡ text.old.items ++ (codes "/" ++ end_word address)) }
{
    match address {
        Some(address) => {
            text.push(b'/')?;
            put_address(text, address)
        }
        None => put_text(text, b"/-"),
    }
}

// Adds a switching point.
fn put_point(text: &mut Vec<u8>, point: Point) -> Result<(), NoMemory>
    ensures { OnOk result (text.new.items ≡ text.old.items ++ (codes " " ++ point_word point)) }
{
    put_segment(text, point.pw_id)?;
    put_end(text, point.local)?;
    put_end(text, point.remote)
}

/// Adds switching points.
pub fn put_points(text: &mut Vec<u8>, points: &Points) -> Result<(), NoMemory>
    ensures { OnOk result (text.new.items ≡ text.old.items ++ spaced (point_words points.now)) }
{
    let mut index = 0;
    'adding: while index < points.len() {
        let point = points.get(index).unwrap();
        put_point(text, point)?;
        index += 1;
    }
    Ok(())
}
