//! Rows of plans: what they are, and their faults. The faults that are expected were read off the same documents by an
//! independent reader.

use crate::scenarios::tables::{LINES, WHOLE, read_as};

// A document with edges, their faults, and values at the ends of their ranges.
const WITH_EDGES: &str = "version = 1
edge = [@]
service = [{name='s'}]
circuit = []
wire = []
events = []
";

const EDGES: &str = "
{address='10.0.0.1'} => Missing(Place { table: Edge, index: 1, key: 'name' })
{name=1,address='10.0.0.1'} => WrongKind(Place { table: Edge, index: 1, key: 'name' })
{name='A',address='10.0.0.1'} => Plan(OutOfRange(Place { table: Edge, index: 1, key: 'name' }))
{name='a'} => Missing(Place { table: Edge, index: 1, key: 'address' })
{name='a',address='010.0.0.1'} => Plan(OutOfRange(Place { table: Edge, index: 1, key: 'address' }))
{name='a',address='0.0.0.0'} => Plan(OutOfRange(Place { table: Edge, index: 1, key: 'address' }))
{name='a',address='10.0.0.1',first_label=15} => Plan(OutOfRange(Place { table: Edge, index: 1, key: 'first_label' }))
{name='a',address='10.0.0.1',keepalive=65536} => Plan(OutOfRange(Place { table: Edge, index: 1, key: 'keepalive' }))
{name='a',address='10.0.0.1'},{name='b',address='10.0.0.2',max_pdu=4097} => Plan(OutOfRange(Place { table: Edge, index: 2, key: 'max_pdu' }))
{name='a',address='10.0.0.1',mtu=1} => UnknownKey(Place { table: Edge, index: 1, key: 'mtu' })
{name='a',address='10.0.0.1'},{name='a',address='10.0.0.2'} => Plan(RepeatedName(Place { table: Edge, index: 2, key: 'name' }))
{name='a',address='10.0.0.1'},{name='b',address='10.0.0.1'} => Plan(RepeatedName(Place { table: Edge, index: 2, key: 'address' }))

{name='a',address='10.0.0.1',first_label=16,keepalive=3,max_pdu=256} => 0 commands
{name='zzzzzzzzzzzzzzzzzzzzzzzzzzzzzzzz',address='255.255.255.255',first_label=1048575,keepalive=65535,max_pdu=4096} => 0 commands
";

// A document with services, their faults, and values at the ends of their ranges.
const WITH_SERVICES: &str = "version = 1
edge = [{name='a',address='10.0.0.1'}]
service = [@]
circuit = []
wire = []
events = []
";

const SERVICES: &str = "
{} => Missing(Place { table: Service, index: 1, key: 'name' })
{name='s',mtu=63} => Plan(OutOfRange(Place { table: Service, index: 1, key: 'mtu' }))
{name='s',age=1000001} => Plan(OutOfRange(Place { table: Service, index: 1, key: 'age' }))
{name='s',edge='a'} => UnknownKey(Place { table: Service, index: 1, key: 'edge' })
{name='s'},{name='a'} => Plan(RepeatedName(Place { table: Service, index: 2, key: 'name' }))

{name='s',mtu=64,age=1} => 0 commands
{name='s',mtu=9198,age=1000000} => 0 commands
";

// A document with circuits, their faults, and values at the ends of their ranges.
const WITH_CIRCUITS: &str = "version = 1
edge = [{name='a',address='10.0.0.1'}]
service = [{name='s'}]
circuit = [@]
wire = []
events = []
";

const CIRCUITS: &str = "
{edge='a'} => Missing(Place { table: Circuit, index: 1, key: 'name' })
{name='c',edge='a'} => Missing(Place { table: Circuit, index: 1, key: 'service' })
{name='c',edge='a',service='s',tag=4095} => Plan(OutOfRange(Place { table: Circuit, index: 1, key: 'tag' }))
{name='c',edge='a',service='s',tag='1'} => WrongKind(Place { table: Circuit, index: 1, key: 'tag' })
{name='c',edge='a',service='s',tagg=1} => UnknownKey(Place { table: Circuit, index: 1, key: 'tagg' })
{name='c',edge='b',service='s'} => Plan(UnknownName(Place { table: Circuit, index: 1, key: 'edge' }))
{name='c',edge='a',service='t'} => Plan(UnknownName(Place { table: Circuit, index: 1, key: 'service' }))
{name='c',edge='a',service='s'},{name='c',edge='a',service='s'} => Plan(RepeatedName(Place { table: Circuit, index: 2, key: 'name' }))

{name='c',edge='a',service='s',tag=1} => 0 commands
{name='c',edge='a',service='s',tag=4094} => 0 commands
";

// A document with wires, their faults, and values at the ends of their ranges.
const WITH_WIRES: &str = "version = 1
edge = [{name='a',address='10.0.0.1'},{name='b',address='10.0.0.2'}]
service = [{name='s'}]
circuit = []
wire = [@]
events = []
";

const WIRES: &str = "
{service='s'} => Missing(Place { table: Wire, index: 1, key: 'name' })
{name='w',service='s',class='hub'} => Plan(OutOfRange(Place { table: Wire, index: 1, key: 'class' }))
{name='w',service='s',class='mesh',path='a'} => WrongKind(Place { table: Wire, index: 1, key: 'path' })
{name='w',service='s',class='mesh',path=['A',1]} => WrongKind(Place { table: Wire, index: 1, key: 'path' })
{name='w',service='s',class='mesh',path=['A','b']} => Plan(OutOfRange(Place { table: Wire, index: 1, key: 'path' }))
{name='w',service='s',class='mesh',path=['a','b']} => Missing(Place { table: Wire, index: 1, key: 'pw_id' })
{name='w',service='s',class='mesh',path=['a','b'],pw_id=0} => Plan(OutOfRange(Place { table: Wire, index: 1, key: 'pw_id' }))
{name='w',service='t',class='mesh',path=['a','b'],pw_id=1} => Plan(UnknownName(Place { table: Wire, index: 1, key: 'service' }))
{name='w',service='s',class='mesh',path=['a','d'],pw_id=1} => Plan(UnknownName(Place { table: Wire, index: 1, key: 'path' }))
{name='s',service='s',class='mesh',path=['a','b'],pw_id=1} => Plan(RepeatedName(Place { table: Wire, index: 1, key: 'name' }))
{name='b',service='s',class='mesh',path=['a','b'],pw_id=1} => Plan(RepeatedName(Place { table: Wire, index: 1, key: 'name' }))
{name='w',service='s',class='mesh',path=['a','b'],pw_id=1},{name='w',service='s',class='mesh',path=['a','b'],pw_id=1} => Plan(RepeatedName(Place { table: Wire, index: 2, key: 'name' }))
{name='w',service='s',class='mesh',path=['a'],pw_id=1} => Plan(PathTooLong(Place { table: Wire, index: 1, key: 'path' }))
{name='w',service='s',class='mesh',path=['a','a'],pw_id=1} => Plan(PathRepeats(Place { table: Wire, index: 1, key: 'path' }))
{name='w',service='s',class='mesh',path=['a','b'],pw_id=1},{name='x',service='s',class='mesh',path=['a','b'],pw_id=2} => Plan(TwoMeshWires(Place { table: Wire, index: 2, key: 'path' }))

{name='w',service='s',class='mesh',path=['a','b'],pw_id=1,priority=0,mode='tagged',control_word=false,mtu=0,vlan=0,vccv=0,status=false,group=0,description=''} => 0 commands
{name='w',service='s',class='mesh',path=['a','b'],pw_id=1,priority=255,mode='raw',mtu=65535,vlan=4095,vccv=7,group=4294967295,description='xxxxxxxxxxxxxxxxxxxxxxxxxxxxxxxxxxxxxxxxxxxxxxxxxxxxxxxxxxxxxxxxxxxxxxxxxxxxxxxx'} => 0 commands
{name='w',service='s',class='mesh',path=['a','b'],pw_id=1,far_mode='tagged',far_control_word=false,far_mtu=9,far_vlan=4095,far_vccv=7,far_status=false,far_group=4294967295,far_description='f'} => 0 commands
{name='w',service='s',class='mesh',path=['a','b'],pw_id=4294967295} => 0 commands
";

// A wire that has more keys, and its faults.
const WITH_KEYS: &str = "version = 1
edge = [{name='a',address='10.0.0.1'},{name='b',address='10.0.0.2'}]
service = [{name='s'}]
circuit = []
wire = [{name='w',service='s',class='mesh',path=['a','b'],pw_id=1@}]";

const KEYS: &str = "
,priority=256 => Plan(OutOfRange(Place { table: Wire, index: 1, key: 'priority' }))
,mode='q' => Plan(OutOfRange(Place { table: Wire, index: 1, key: 'mode' }))
,control_word=1 => WrongKind(Place { table: Wire, index: 1, key: 'control_word' })
,mtu=65536 => Plan(OutOfRange(Place { table: Wire, index: 1, key: 'mtu' }))
,vlan=4096 => Plan(OutOfRange(Place { table: Wire, index: 1, key: 'vlan' }))
,vccv=8 => Plan(OutOfRange(Place { table: Wire, index: 1, key: 'vccv' }))
,status='on' => WrongKind(Place { table: Wire, index: 1, key: 'status' })
,group=-1 => Plan(OutOfRange(Place { table: Wire, index: 1, key: 'group' }))
,description='xxxxxxxxxxxxxxxxxxxxxxxxxxxxxxxxxxxxxxxxxxxxxxxxxxxxxxxxxxxxxxxxxxxxxxxxxxxxxxxxx' => Plan(OutOfRange(Place { table: Wire, index: 1, key: 'description' }))
,far_mode=1 => WrongKind(Place { table: Wire, index: 1, key: 'far_mode' })
,far_vlan=4096 => Plan(OutOfRange(Place { table: Wire, index: 1, key: 'far_vlan' }))
,far_description=1 => WrongKind(Place { table: Wire, index: 1, key: 'far_description' })
,far_priority=1 => UnknownKey(Place { table: Wire, index: 1, key: 'far_priority' })
,far_mode=1,description=1 => WrongKind(Place { table: Wire, index: 1, key: 'description' })
,zeta=1,far_vccv=8 => Plan(OutOfRange(Place { table: Wire, index: 1, key: 'far_vccv' }))
";

#[test]
fn tells_faults_and_ends_of_ranges(rt: HostRuntime) {
    let alloc = rt.alloc();
    read_as(&rt, alloc, WITH_EDGES, WHOLE, (LINES, EDGES, 14));
    read_as(&rt, alloc, WITH_SERVICES, WHOLE, (LINES, SERVICES, 7));
    read_as(&rt, alloc, WITH_CIRCUITS, WHOLE, (LINES, CIRCUITS, 10));
    read_as(&rt, alloc, WITH_WIRES, WHOLE, (LINES, WIRES, 19));
    read_as(&rt, alloc, WITH_KEYS, WHOLE, (LINES, KEYS, 15));
}

// A wire that has a key of its far end, the words of its plan, and those of its far end.
const WITH_KEY: &str = "version = 1
edge = [{name='a',address='10.0.0.1'},{name='b',address='10.0.0.2'}]
service = [{name='s'}]
circuit = []
wire = [{name='w',service='s',class='mesh',path=['a','b'],pw_id=1,@}]";

const PLAN: &str =
    "Plan { edges: List { items: [EdgePlan { name: Name { text: 'a' }, address: Addr([10, 0, 0, 1]), first_label: 16, keepalive: 180, max_pdu: 4096 }, EdgePlan { name: Name { text: 'b' }, address: Addr([10, 0, 0, 2]), first_label: 16, keepalive: 180, max_pdu: 4096 }] }, services: List { items: [ServicePlan { name: Name { text: 's' }, mtu: 1500, age: 300 }] }, circuits: List { items: [] }, wires: List { items: [WirePlan { name: Name { text: 'w' }, service: ServiceId(0), class: Mesh, path: List { items: [EdgeId(0), EdgeId(1)] }, pw_id: 1, near: Offer { tagged: false, cword: true, mtu: Some(1500), vlan: None, vccv: None, status: true, group: 0, description: '' }, far: @, priority: 100 }] } }";

const FAR_KEYS: &str = "
far_mode='tagged' => Offer { tagged: true, cword: true, mtu: Some(1500), vlan: None, vccv: None, status: true, group: 0, description: '' }
far_control_word=false => Offer { tagged: false, cword: false, mtu: Some(1500), vlan: None, vccv: None, status: true, group: 0, description: '' }
far_mtu=9000 => Offer { tagged: false, cword: true, mtu: Some(9000), vlan: None, vccv: None, status: true, group: 0, description: '' }
far_mtu=0 => Offer { tagged: false, cword: true, mtu: None, vlan: None, vccv: None, status: true, group: 0, description: '' }
far_vlan=0 => Offer { tagged: false, cword: true, mtu: Some(1500), vlan: Some(0), vccv: None, status: true, group: 0, description: '' }
far_vccv=5 => Offer { tagged: false, cword: true, mtu: Some(1500), vlan: None, vccv: Some(5), status: true, group: 0, description: '' }
far_status=false => Offer { tagged: false, cword: true, mtu: Some(1500), vlan: None, vccv: None, status: false, group: 0, description: '' }
far_group=9 => Offer { tagged: false, cword: true, mtu: Some(1500), vlan: None, vccv: None, status: true, group: 9, description: '' }
far_description='far' => Offer { tagged: false, cword: true, mtu: Some(1500), vlan: None, vccv: None, status: true, group: 0, description: Text { octets: [102, 97, 114, 0, 0, 0, 0, 0, 0, 0, 0, 0, 0, 0, 0, 0, 0, 0, 0, 0, 0, 0, 0, 0, 0, 0, 0, 0, 0, 0, 0, 0, 0, 0, 0, 0, 0, 0, 0, 0, 0, 0, 0, 0, 0, 0, 0, 0, 0, 0, 0, 0, 0, 0, 0, 0, 0, 0, 0, 0, 0, 0, 0, 0, 0, 0, 0, 0, 0, 0, 0, 0, 0, 0, 0, 0, 0, 0, 0, 0], len: 3 } }
";

#[test]
fn reads_each_key_of_the_far_end(rt: HostRuntime) {
    read_as(&rt, rt.alloc(), WITH_KEY, PLAN, (LINES, FAR_KEYS, 9));
}
