//! Whole documents: what rows are by default, and faults. The faults that are expected were read off the same documents by an
//! independent reader.

use crate::scenarios::tables::{BLOCKS, WHOLE, read_as, reads_octets};
use std::alloc::Global;
use std::process::Abort;

// Faults of the top, of names that no row has, and of plans, and faults without a place. The last document has no rows.
const DOCUMENTS: &str = " => Missing(Place { table: Top, index: 0, key: 'version' })

version = '1' => WrongKind(Place { table: Top, index: 0, key: 'version' })

version = 1
events = 1 => WrongKind(Place { table: Top, index: 0, key: 'events' })

version = 1
events = [1] => WrongKind(Place { table: Top, index: 0, key: 'events' })

version = 1
edge = {} => WrongKind(Place { table: Top, index: 0, key: 'edge' })

version = 1
edge = [{},1] => WrongKind(Place { table: Top, index: 0, key: 'edge' })

version = 1
wire = 1 => WrongKind(Place { table: Top, index: 0, key: 'wire' })

version = 1
zebra = 1
other = 1 => UnknownKey(Place { table: Top, index: 0, key: 'other' })

version = 1
'a b' = 1 => UnknownKey(Place { table: Top, index: 0, key: 'a?b' })

version = 1
edge = [{name='a',address='10.0.0.1'},{name='b',address='10.0.0.2'}]
service = [{name='s'}]
circuit = [{name='c',edge='a',service='t'}]
wire = [{name='w',service='t',class='mesh',path=['a','b'],pw_id=1}]
events = []
 => Plan(UnknownName(Place { table: Circuit, index: 1, key: 'service' }))

version = 1
edge = [{name='a',address='10.0.0.1'},{name='b',address='10.0.0.2'}]
service = [{name='s'}]
circuit = [{name='b',edge='a',service='s'}]
wire = []
events = []
 => Plan(RepeatedName(Place { table: Circuit, index: 1, key: 'name' }))

version = 1
edge = [{name='a',address='10.0.0.1'},{name='b',address='10.0.0.2'}]
service = [{name='s'}]
circuit = [{name='s',edge='a',service='s'}]
wire = []
events = []
 => Plan(RepeatedName(Place { table: Circuit, index: 1, key: 'name' }))

version = 1
edge = [{name='a',address='10.0.0.1'},{name='b',address='10.0.0.2'}]
service = [{name='s'}]
circuit = [{name='c',edge='a',service='s'}]
wire = [{name='c',service='s',class='mesh',path=['a','b'],pw_id=1}]
events = []
 => Plan(RepeatedName(Place { table: Wire, index: 1, key: 'name' }))

version = 1
edge = [{name='a',address='10.0.0.1'},{name='b',address='10.0.0.2'}]
service = [{name='s'},{name='t'}]
circuit = []
wire = [{name='w',service='s',class='mesh',path=['a','b'],pw_id=1},{name='x',service='t',class='mesh',path=['a','b'],pw_id=1}]
events = []
 => Plan(RepeatedPwId(Place { table: Wire, index: 2, key: 'pw_id' }))

version = 1
edge = [{name='a',address='10.0.0.1'},{name='b',address='10.0.0.2'},{name='d',address='10.0.0.3'}]
service = [{name='s'}]
circuit = []
wire = [{name='w',service='s',class='spoke',path=['a','b'],pw_id=1},{name='x',service='s',class='mesh',path=['a','d'],pw_id=1}]
events = []
 => Plan(SpokeInMesh(Place { table: Wire, index: 2, key: 'path' }))

version = 1
edge = [{name='a',address='10.0.0.1'},{name='a',address='10.0.0.2'}]
service = [{name='s'}]
circuit = [{name='c',edge='a',service='t'}]
wire = []
events = []
 => Plan(UnknownName(Place { table: Circuit, index: 1, key: 'service' }))

version = 1
edge = [{name='a',address='10.0.0.1'}]
service = [{name='s'}]
circuit = [{name='c',edge='q',service='s'}]
wire = []
events = ['x']
 => Plan(UnknownName(Place { table: Circuit, index: 1, key: 'edge' }))

version = 1
edge = [{name='a',address='10.0.0.1'}]
service = [{name='s',mtu=63}]
circuit = [{name='c',edge='q',service='s'}]
wire = []
events = []
 => Plan(OutOfRange(Place { table: Service, index: 1, key: 'mtu' }))

version = 1
zebra = 1
edge = [{},{},{},{},{},{},{},{},{},{},{},{},{},{},{},{},{},{},{},{},{},{},{},{},{},{},{},{},{},{},{},{},{},{},{},{},{},{},{},{},{},{},{},{},{},{},{},{},{},{},{},{},{},{},{},{},{},{},{},{},{},{},{},{},{}] => UnknownKey(Place { table: Top, index: 0, key: 'zebra' })

version = => NotToml

version = 3 => Version

version = -1
zebra = 1 => Version

version = 1
 => 0 commands";

// Two edges, a service, a circuit and a wire with what rows have by default.
const DEFAULTS: &str = "version = 1
edge = [{name='a',address='10.0.0.1'},{name='b',address='10.0.0.2'}]
service = [{name='s'}]
circuit = [{name='c',edge='a',service='s'}]
wire = [{name='w',service='s',class='mesh',path=['a','b'],pw_id=1}]
 => Plan { edges: List { items: [EdgePlan { name: Name { text: 'a' }, address: Addr([10, 0, 0, 1]), first_label: 16, keepalive: 180, max_pdu: 4096 }, EdgePlan { name: Name { text: 'b' }, address: Addr([10, 0, 0, 2]), first_label: 16, keepalive: 180, max_pdu: 4096 }] }, services: List { items: [ServicePlan { name: Name { text: 's' }, mtu: 1500, age: 300 }] }, circuits: List { items: [CircuitPlan { name: Name { text: 'c' }, edge: EdgeId(0), service: ServiceId(0), tag: None }] }, wires: List { items: [WirePlan { name: Name { text: 'w' }, service: ServiceId(0), class: Mesh, path: List { items: [EdgeId(0), EdgeId(1)] }, pw_id: 1, near: Offer { tagged: false, cword: true, mtu: Some(1500), vlan: None, vccv: None, status: true, group: 0, description: '' }, far: Offer { tagged: false, cword: true, mtu: Some(1500), vlan: None, vccv: None, status: true, group: 0, description: '' }, priority: 100 }] } }";

#[test]
fn reads_documents(rt: HostRuntime) {
    let alloc = rt.alloc();
    read_as(&rt, alloc, WHOLE, WHOLE, (BLOCKS, DOCUMENTS, 23));
    read_as(&rt, alloc, WHOLE, WHOLE, (BLOCKS, DEFAULTS, 1));
    reads_octets(&rt, alloc, b"\xff", "NotToml");
}

// A document of so many pieces behind a front.
fn repeated(rt: &impl Abort, alloc: Global, front: &str, piece: &str, count: u32) -> String {
    let mut text = String::from_str(alloc, front).expect(rt, "memory");
    for _ in 0..count {
        text.push_str(piece).expect(rt, "memory");
    }
    text.push_str("]").expect(rt, "memory");
    text
}

// The front of a document with too many pieces, such a piece, and how many there are; and the fault.
type Crowd = (&'static str, &'static str, u32, &'static str);

// So many events may be, of which each is at fault here, and one more may not; the rows of each table are one too many.
const CROWDS: [Crowd; 7] = [
    (
        "version = 1\nevents = [",
        "'',",
        100000,
        "BadWord { event: 1, word: 1 }",
    ),
    (
        "version = 1\nevents = [",
        "'',",
        100001,
        "TooMany { table: Events, limit: 100000 }",
    ),
    (
        "version = 1\nedge = [",
        "{},",
        65,
        "TooMany { table: Edge, limit: 64 }",
    ),
    (
        "version = 1\nservice = [",
        "{},",
        65,
        "TooMany { table: Service, limit: 64 }",
    ),
    (
        "version = 1\ncircuit = [",
        "{},",
        513,
        "TooMany { table: Circuit, limit: 512 }",
    ),
    (
        "version = 1\nwire = [",
        "{},",
        1025,
        "TooMany { table: Wire, limit: 1024 }",
    ),
    (
        "version = 2\ngroup = [",
        "{},",
        2049,
        "TooMany { table: Group, limit: 2048 }",
    ),
];

// A document with many pieces has its fault.
fn is_refused(rt: &impl Abort, alloc: Global, crowd: &Crowd) {
    let (front, piece, count, words) = crowd;
    let text = repeated(rt, alloc, front, piece, *count);
    reads_octets(rt, alloc, text.as_bytes(), words);
}

#[test]
fn tells_too_many_rows_and_events(rt: HostRuntime) {
    for crowd in CROWDS.as_slice() {
        is_refused(&rt, rt.alloc(), crowd);
    }
}
