//! Values with octets that were worked out by hand, and octets that are no value, each row with its first fault.
ghost use Rattle.std.specs.Prelude.{◌≤◌, length};

use crate::rows::{About, reads_as};
use crate::words::{holds, is_front, is_told, says};
use net_base::Field;
use pw_tlvs::{
    FecValue, FieldFault, MacsFault, Point, Points, fec_size, is_writable_fec, macs_size,
    point_size, read_fec, read_macs, read_point, read_status, write_fec, write_macs, write_point,
    write_status,
};
use std::alloc::Global;
use std::process::Abort;

// Elements that are read and not written. One has an unknown parameter, and an element of another type is not looked into, nor is
// one with a further octet or with a second element behind it. An information length of 1 to 3 is too short for a PW ID, and
// one of 20 counts past the end.
const ELEMENTS: &str = "
    80 8005 0a 00000000 00000064 010405dc 7f02 = Ok(Pw(PwFec { c: true, kind: 5, group: 0, pw_id: Some(100), params: IfParams { mtu: Some(1500), description: '', vlan: None, vccv: None } }))
    02 00 01 20 0a0003 = Ok(Foreign(2))
    80 8005 08 00000000 00000064 010905dc 80 = Ok(Foreign(128))
    80 8005 00 00000007 00 = Ok(Foreign(128))
    = Err(Size)
    80 8005 00 000000 = Err(Size)
    80 0005 01 00000000 00 = Err(Value { at: 3, field: InfoLength })
    80 0005 02 00000000 0000 = Err(Value { at: 3, field: InfoLength })
    80 0005 03 00000000 000000 = Err(Value { at: 3, field: InfoLength })
    80 8005 14 00000000 00000064 010405dc = Err(Value { at: 3, field: InfoLength })
    Of PW ID 0 with parameters.
    A length past the end, one below two, and one last octet alone.
    80 0000 08 00000000 00000000 7f050000 = Err(Value { at: 13, field: Parameter })
    80 0000 08 00000000 00000000 7f010000 = Err(Value { at: 13, field: Parameter })
    80 0000 09 00000000 00000000 010405dc 7f = Err(Value { at: 16, field: Parameter })
    A known type of another length, also of one that is too small or reaches past the end.
    80 0000 09 00000000 00000000 010505dc00 = Err(Value { at: 13, field: Mtu })
    80 0000 08 00000000 00000000 06030700 = Err(Value { at: 13, field: Vlan })
    80 0000 08 00000000 00000000 0c027f02 = Err(Value { at: 13, field: Vccv })
    80 0000 08 00000000 00000000 010105dc = Err(Value { at: 13, field: Parameter })
    80 0000 08 00000000 00000000 06090007 = Err(Value { at: 13, field: Parameter })
    A VLAN ID of 4096.
    80 0000 08 00000000 00000000 06041000 = Err(Value { at: 14, field: Vlan })
    A known type that comes again, also an empty description, before what is wrong with its length.
    80 0000 0c 00000000 00000000 010405dc 010405dc = Err(Repeated { at: 16, field: Mtu })
    80 0000 08 00000000 00000000 0302 0302 = Err(Repeated { at: 14, field: Description })
    80 0000 0c 00000000 00000000 06040007 06040007 = Err(Repeated { at: 16, field: Vlan })
    80 0000 0a 00000000 00000000 0c040102 0c09 = Err(Repeated { at: 16, field: Vccv })
    One last octet alone before the type that it repeats, and the first of two faults.
    80 0000 09 00000000 00000000 010405dc 01 = Err(Value { at: 16, field: Parameter })
    80 0000 0b 00000000 00000000 06041000 010300 = Err(Value { at: 14, field: Vlan })
    A description of 81 octets.
    80 0000 57 00000000 00000000 0353 000000000000000000000000000000000000000000000000000000000000000000000000000000000000000000000000000000000000000000000000000000000000000000000000000000000000000000 = Err(Value { at: 13, field: Description })
";

// Elements that are also written: one with the C bit, raw, of PW ID 100 and MTU 1500, one of a group, and one with all
// parameters, of which the description is `ab`.
const WRITTEN_ELEMENTS: &str = "
    80 8005 08 00000000 00000064 010405dc = Ok(Pw(PwFec { c: true, kind: 5, group: 0, pw_id: Some(100), params: IfParams { mtu: Some(1500), description: '', vlan: None, vccv: None } }))
    80 8005 00 00000007 = Ok(Pw(PwFec { c: true, kind: 5, group: 7, pw_id: None, params: IfParams { mtu: None, description: '', vlan: None, vccv: None } }))
    80 0004 14 00000102 00000064 010405dc 03046162 06040007 0c040102 = Ok(Pw(PwFec { c: false, kind: 4, group: 258, pw_id: Some(100), params: IfParams { mtu: Some(1500), description: Text { octets: [97, 98, 0, 0, 0, 0, 0, 0, 0, 0, 0, 0, 0, 0, 0, 0, 0, 0, 0, 0, 0, 0, 0, 0, 0, 0, 0, 0, 0, 0, 0, 0, 0, 0, 0, 0, 0, 0, 0, 0, 0, 0, 0, 0, 0, 0, 0, 0, 0, 0, 0, 0, 0, 0, 0, 0, 0, 0, 0, 0, 0, 0, 0, 0, 0, 0, 0, 0, 0, 0, 0, 0, 0, 0, 0, 0, 0, 0, 0, 0], len: 2 }, vlan: Some(7), vccv: Some((1, 2)) } }))
";

// Switching points: with all parts, with none, with the far address alone, and with the last segment too. Then no length, a
// length past the end, a wrong length, a part that comes again, and a length past the end before the type that it repeats.
const POINTS: &str = "
    010400000064 03040a000002 04040a000003 = Ok(Point { pw_id: Some(100), local: Some(Addr([10, 0, 0, 2])), remote: Some(Addr([10, 0, 0, 3])) })
    = Ok(Point { pw_id: None, local: None, remote: None })
    04040a000003 = Ok(Point { pw_id: None, local: None, remote: Some(Addr([10, 0, 0, 3])) })
    010400000064 04040a000003 = Ok(Point { pw_id: Some(100), local: None, remote: Some(Addr([10, 0, 0, 3])) })
    03 = Err(Value { at: 0, field: Point })
    0200 03050a000002 = Err(Value { at: 2, field: Point })
    0103000000 = Err(Value { at: 1, field: Point })
    03030a0000 = Err(Value { at: 1, field: Point })
    03050a00000200 = Err(Value { at: 1, field: Point })
    04050a00000300 = Err(Value { at: 1, field: Point })
    010400000064 010400000065 = Err(Repeated { at: 6, field: Point })
    04040a000003 010400000064 04040a000004 = Err(Repeated { at: 12, field: Point })
    03040a000002 0200 0200 0300 = Err(Repeated { at: 10, field: Point })
    03040a000002 0301 = Err(Value { at: 6, field: Point })
";

const STATUSES: &str = "
    00000020 = Ok(PwStatus(32))
    000020 = Err(Size)
";

// Two addresses, none, and one with an octet of a second.
const MACS: &str = "
    020000000001 020000000002 = Ok(List { items: [Mac([2, 0, 0, 0, 0, 1]), Mac([2, 0, 0, 0, 0, 2])] })
    = Ok(List { items: [] })
    020000000001 02 = Err(Field(Size))
";

// So many octets were written, which are these.
fn are_written(rt: &impl Abort, out: &[u8; 28], count: usize, octets: &[u8]) {
    holds(rt, count == octets.len(), "so many octets");
    holds(rt, is_front(out, octets), "the octets");
}

// The octets are this FEC; where it is a written one, it is written as these octets again.
fn is_fec(rt: &impl Abort, alloc: Global, about: About, octets: &[u8], words: &str)
    requires { length octets.now ≤ 200 }
{
    let read = read_fec(octets);
    is_told(rt, alloc, &read, words);
    if let (About::WrittenFecs, Ok(FecValue::Pw(fec))) = (about, read) {
        let mut out = [0xee; 28];
        holds(rt, is_writable_fec(&fec), "writable");
        holds(
            rt,
            fec_size(&fec) == octets.len(),
            "of the size of the octets",
        );
        holds(rt, octets.len() <= 28, "28 octets at most");
        let count = write_fec(&fec, &mut out);
        are_written(rt, &out, count, octets);
    }
}

fn is_point(rt: &impl Abort, alloc: Global, octets: &[u8], words: &str)
    requires { length octets.now ≤ 200 }
{
    let read = read_point(octets);
    is_told(rt, alloc, &read, words);
    if let Ok(point) = read {
        let mut out = [0xee; 28];
        holds(
            rt,
            point_size(&point) == octets.len(),
            "of the size of the octets",
        );
        let count = write_point(&point, &mut out);
        are_written(rt, &out, count, octets);
    }
}

fn is_status(rt: &impl Abort, alloc: Global, octets: &[u8], words: &str)
    requires { length octets.now ≤ 200 }
{
    let read = read_status(octets);
    is_told(rt, alloc, &read, words);
    if let Ok(status) = read {
        let mut out = [0xee; 28];
        let count = write_status(status, &mut out);
        are_written(rt, &out, count, octets);
    }
}

fn are_macs(rt: &impl Abort, alloc: Global, octets: &[u8], words: &str)
    requires { length octets.now ≤ 200 }
{
    let read = read_macs(alloc, octets);
    is_told(rt, alloc, &read, words);
    if let Ok(list) = &read {
        let mut out = [0xee; 28];
        holds(
            rt,
            macs_size(list) == octets.len(),
            "of the size of the octets",
        );
        holds(rt, octets.len() <= 28, "28 octets at most");
        let count = write_macs(list, &mut out);
        are_written(rt, &out, count, octets);
    }
}

/// The octets of a row, which are few, are the value or have the fault of its words.
pub fn agrees(rt: &impl Abort, alloc: Global, about: About, octets: &[u8], words: &str) {
    holds(rt, octets.len() <= 200, "200 octets at most");
    match about {
        About::Points => is_point(rt, alloc, octets, words),
        About::Statuses => is_status(rt, alloc, octets, words),
        About::Macs => are_macs(rt, alloc, octets, words),
        _ => is_fec(rt, alloc, about, octets, words),
    }
}

#[test]
fn reads_and_writes_values(rt: HostRuntime) {
    let alloc = rt.alloc();
    reads_as(&rt, alloc, About::Fecs, ELEMENTS, 26);
    reads_as(&rt, alloc, About::WrittenFecs, WRITTEN_ELEMENTS, 3);
    reads_as(&rt, alloc, About::Points, POINTS, 14);
    reads_as(&rt, alloc, About::Statuses, STATUSES, 2);
    reads_as(&rt, alloc, About::Macs, MACS, 3);
}

// A point with this PW ID alone.
fn numbered(pw_id: u32) -> Point {
    Point {
        pw_id: Some(pw_id),
        local: None,
        remote: None,
    }
}

// The points 1, 2 and 3, of which none stood there before.
#[test]
fn holds_points(rt: HostRuntime) {
    let mut points = Points::empty();
    holds(&rt, points.is_empty(), "no point");
    points.add(numbered(1));
    points.add(numbered(2));
    points.add(numbered(3));
    holds(&rt, points.len() == 3 && !points.is_empty(), "three points");
    for index in 0..3u8 {
        let point = numbered(index as u32 + 1);
        holds(
            &rt,
            points.get(index as usize) == Some(point),
            "the points in turn",
        );
    }
    holds(&rt, points.get(3).is_none(), "no fourth point");
}

const VALUE: FieldFault = FieldFault::Value {
    at: 13,
    field: Field::Mtu,
};

const REPEATED: FieldFault = FieldFault::Repeated {
    at: 16,
    field: Field::Vlan,
};

const SIZE: MacsFault = MacsFault::Field(FieldFault::Size);

const LONG_SIZE: &str = "a length that does not fit the layout";

#[test]
fn tells_what_is_wrong(rt: HostRuntime) {
    let alloc = rt.alloc();
    says(&rt, alloc, &FieldFault::Size, LONG_SIZE);
    says(&rt, alloc, &VALUE, "a wrong octet at 13");
    says(&rt, alloc, &REPEATED, "a field that comes again at 16");
    says(&rt, alloc, &SIZE, "no list of addresses");
    says(&rt, alloc, &MacsFault::NoMemory, "out of memory");
}
