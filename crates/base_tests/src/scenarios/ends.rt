//! Documents of version 2: groups by their names, and tables of what the ends of wires offer. The faults that are expected were read
//! off the same documents by an independent reader.

use crate::scenarios::tables::{BLOCKS, LINES, WHOLE, read_as};

// Faults of the top and the order of faults, in documents of both versions.
const DOCUMENTS: &str = "version = 2
group = 1 => WrongKind(Place { table: Top, index: 0, key: 'group' })

version = 2
group = [{},1] => WrongKind(Place { table: Top, index: 0, key: 'group' })

version = 2
service = 1
group = 1
circuit = 1 => WrongKind(Place { table: Top, index: 0, key: 'service' })

version = 2
group = 1
circuit = 1 => WrongKind(Place { table: Top, index: 0, key: 'group' })

version = 2
zebra = 1
groups = [] => UnknownKey(Place { table: Top, index: 0, key: 'groups' })

version = 1
group = [] => UnknownKey(Place { table: Top, index: 0, key: 'group' })

version = 1
edge = [{name='a',address='10.0.0.1'},{name='b',address='10.0.0.2'}]
service = [{name='s'}]
wire = [{name='w',service='s',class='mesh',path=['a','b'],pw_id=1,near={}}] => UnknownKey(Place { table: Wire, index: 1, key: 'near' })

version = 1
edge = [{name='a',address='10.0.0.1'},{name='b',address='10.0.0.2'}]
service = [{name='s'}]
wire = [{name='w',service='s',class='mesh',path=['a','b'],pw_id=1,group='g'}] => WrongKind(Place { table: Wire, index: 1, key: 'group' })

version = 2
edge = [{name='a',address='10.0.0.1'}]
service = [{name='s',mtu=63}]
group = [{}]
circuit = [{}] => Plan(OutOfRange(Place { table: Service, index: 1, key: 'mtu' }))

version = 2
edge = [{name='a',address='10.0.0.1'}]
group = [{}]
circuit = [{}]
wire = [{}] => Missing(Place { table: Group, index: 1, key: 'name' })

version = 2
edge = [{name='a',address='10.0.0.1'},{name='a',address='10.0.0.2'}]
group = [{name='g',number=1},{name='g',number=2}] => Plan(RepeatedName(Place { table: Group, index: 2, key: 'name' }))

version = 2
edge = [{name='a',address='10.0.0.1'}]
service = [{name='s'}]
group = [{name='g',number=1},{name='g',number=2}]
circuit = [{name='c',edge='b',service='s'}] => Plan(UnknownName(Place { table: Circuit, index: 1, key: 'edge' }))

version = 2
edge = [{name='a',address='10.0.0.1'},{name='b',address='10.0.0.2'}]
service = [{name='s'}]
group = [{name='g',number=1},{name='g',number=2}]
wire = [{name='w',service='s',class='mesh',path=['a','b'],pw_id=1,near={group='h'}}] => Plan(UnknownName(Place { table: Near, index: 1, key: 'group' }))

version = 2
edge = [{name='a',address='10.0.0.1'},{name='b',address='10.0.0.2'}]
service = [{name='s'}]
group = [{name='g',number=1},{name='g',number=2}]
wire = [{name='w',service='s',class='mesh',path=['a'],pw_id=1}]
events = ['x'] => Plan(RepeatedName(Place { table: Group, index: 2, key: 'name' }))

version = 2
edge = [{name='a',address='10.0.0.1'}]
events = ['tick','x'] => BadWord { event: 2, word: 1 }

version = 2
edge = [{name='a',address='10.0.0.1'},{name='b',address='10.0.0.2'}]
service = [{name='s'}]
group = [{name='a',number=1},{name='s',number=1}]
wire = [{name='w',service='s',class='mesh',path=['a','b'],pw_id=1,near={group='a'},far={group='s'}}] => 0 commands

version = 3 => Version

version = 0
group = 1 => Version

version = 2.0 => WrongKind(Place { table: Top, index: 0, key: 'version' })

version = 2
 => 0 commands";

// A document with groups, and their faults.
const WITH_GROUPS: &str = "version = 2
edge = [{name='a',address='10.0.0.1'},{name='b',address='10.0.0.2'}]
service = [{name='s'}]
group = [@]
wire = [{name='w',service='s',class='mesh',path=['a','b'],pw_id=1}]";

const GROUPS: &str = "
{number=1} => Missing(Place { table: Group, index: 1, key: 'name' })
{name=1,number=1} => WrongKind(Place { table: Group, index: 1, key: 'name' })
{name='G',number=1} => Plan(OutOfRange(Place { table: Group, index: 1, key: 'name' }))
{name='g'} => Missing(Place { table: Group, index: 1, key: 'number' })
{name='g',number='1'} => WrongKind(Place { table: Group, index: 1, key: 'number' })
{name='g',number=0} => Plan(OutOfRange(Place { table: Group, index: 1, key: 'number' }))
{name='g',number=4294967296} => Plan(OutOfRange(Place { table: Group, index: 1, key: 'number' }))
{name='g',number=1,mtu=1} => UnknownKey(Place { table: Group, index: 1, key: 'mtu' })
{name='g',number=1},{name='h'} => Missing(Place { table: Group, index: 2, key: 'number' })
{name='g',number=1},{name='h',number=1},{name='g',number=2},{name='h',number=3} => Plan(RepeatedName(Place { table: Group, index: 3, key: 'name' }))
{name='g',number=1},{name='a',number=4294967295} => 0 commands
";

// A document with a wire that has more keys, and their faults.
const WITH_ENDS: &str = "version = 2
edge = [{name='a',address='10.0.0.1'},{name='b',address='10.0.0.2'}]
service = [{name='s'}]
group = [{name='g',number=7}]
wire = [{name='w',service='s',class='mesh',path=['a','b'],pw_id=1@}]";

const ENDS: &str = "
,priority=256 => Plan(OutOfRange(Place { table: Wire, index: 1, key: 'priority' }))
,near=1 => WrongKind(Place { table: Wire, index: 1, key: 'near' })
,near=[{}] => WrongKind(Place { table: Wire, index: 1, key: 'near' })
,far='x' => WrongKind(Place { table: Wire, index: 1, key: 'far' })
,near=1,far=1 => WrongKind(Place { table: Wire, index: 1, key: 'near' })
,far=1,near={mode='q'} => WrongKind(Place { table: Wire, index: 1, key: 'far' })
,far_mtu=9 => UnknownKey(Place { table: Wire, index: 1, key: 'far_mtu' })
,mtu=9 => UnknownKey(Place { table: Wire, index: 1, key: 'mtu' })
,group='g' => UnknownKey(Place { table: Wire, index: 1, key: 'group' })
,description='' => UnknownKey(Place { table: Wire, index: 1, key: 'description' })
,mode='raw' => UnknownKey(Place { table: Wire, index: 1, key: 'mode' })
,far_description='x' => UnknownKey(Place { table: Wire, index: 1, key: 'far_description' })
,zeta=1,near={mode='q'} => UnknownKey(Place { table: Wire, index: 1, key: 'zeta' })
,near={zeta=1,alpha=1,mode=1} => WrongKind(Place { table: Near, index: 1, key: 'mode' })
,near={mode='q'} => Plan(OutOfRange(Place { table: Near, index: 1, key: 'mode' }))
,near={mode=1} => WrongKind(Place { table: Near, index: 1, key: 'mode' })
,near={control_word=1} => WrongKind(Place { table: Near, index: 1, key: 'control_word' })
,near={mtu=65536} => Plan(OutOfRange(Place { table: Near, index: 1, key: 'mtu' }))
,near={mtu=-1} => Plan(OutOfRange(Place { table: Near, index: 1, key: 'mtu' }))
,near={vlan=4096} => Plan(OutOfRange(Place { table: Near, index: 1, key: 'vlan' }))
,near={vccv=8} => Plan(OutOfRange(Place { table: Near, index: 1, key: 'vccv' }))
,near={status='on'} => WrongKind(Place { table: Near, index: 1, key: 'status' })
,near={group=7} => WrongKind(Place { table: Near, index: 1, key: 'group' })
,near={group='G'} => Plan(OutOfRange(Place { table: Near, index: 1, key: 'group' }))
,near={description='xxxxxxxxxxxxxxxxxxxxxxxxxxxxxxxxxxxxxxxxxxxxxxxxxxxxxxxxxxxxxxxxxxxxxxxxxxxxxxxxx'} => Plan(OutOfRange(Place { table: Near, index: 1, key: 'description' }))
,near={description=1} => WrongKind(Place { table: Near, index: 1, key: 'description' })
,near={description=1,group=1} => WrongKind(Place { table: Near, index: 1, key: 'group' })
,near={far_mode='raw'} => UnknownKey(Place { table: Near, index: 1, key: 'far_mode' })
,near={name='w'} => UnknownKey(Place { table: Near, index: 1, key: 'name' })
,near={alpha=1},far={mode=1} => UnknownKey(Place { table: Near, index: 1, key: 'alpha' })
,far={mode='q'} => Plan(OutOfRange(Place { table: Far, index: 1, key: 'mode' }))
,far={control_word='x'} => WrongKind(Place { table: Far, index: 1, key: 'control_word' })
,far={mtu=65536} => Plan(OutOfRange(Place { table: Far, index: 1, key: 'mtu' }))
,far={vlan=-1} => Plan(OutOfRange(Place { table: Far, index: 1, key: 'vlan' }))
,far={vccv='x'} => WrongKind(Place { table: Far, index: 1, key: 'vccv' })
,far={status=0} => WrongKind(Place { table: Far, index: 1, key: 'status' })
,far={group=7} => WrongKind(Place { table: Far, index: 1, key: 'group' })
,far={group='G'} => Plan(OutOfRange(Place { table: Far, index: 1, key: 'group' }))
,far={description=[]} => WrongKind(Place { table: Far, index: 1, key: 'description' })
,far={far_mtu=9} => UnknownKey(Place { table: Far, index: 1, key: 'far_mtu' })
,near={group='h'} => Plan(UnknownName(Place { table: Near, index: 1, key: 'group' }))
,far={group='h'} => Plan(UnknownName(Place { table: Far, index: 1, key: 'group' }))
,near={group='h'},far={group='i'} => Plan(UnknownName(Place { table: Near, index: 1, key: 'group' }))
,near={group='g'},far={group='h'} => Plan(UnknownName(Place { table: Far, index: 1, key: 'group' }))
,near={},far={} => 0 commands
,near={mode='tagged',control_word=false,mtu=0,vlan=0,vccv=0,status=false,group='g',description=''} => 0 commands
,far={mode='raw',control_word=true,mtu=65535,vlan=4095,vccv=7,status=true,group='g',description='xxxxxxxxxxxxxxxxxxxxxxxxxxxxxxxxxxxxxxxxxxxxxxxxxxxxxxxxxxxxxxxxxxxxxxxxxxxxxxxx'} => 0 commands
";

#[test]
fn tells_faults_of_groups_and_ends(rt: HostRuntime) {
    let alloc = rt.alloc();
    read_as(&rt, alloc, WHOLE, WHOLE, (BLOCKS, DOCUMENTS, 20));
    read_as(&rt, alloc, WITH_GROUPS, WHOLE, (LINES, GROUPS, 11));
    read_as(&rt, alloc, WITH_ENDS, WHOLE, (LINES, ENDS, 47));
}

// A wire of a service with an MTU, which has tables of its ends; and the words of its plan with those of both offers.
const WITH_OFFERS: &str = "version = 2
edge = [{name='a',address='10.0.0.1'},{name='b',address='10.0.0.2'}]
service = [{name='s',mtu=1400}]
group = [{name='g',number=7},{name='h',number=9}]
wire = [{name='w',service='s',class='mesh',path=['a','b'],pw_id=1,@}]";

const PLAN: &str =
    "Plan { edges: List { items: [EdgePlan { name: Name { text: 'a' }, address: Addr([10, 0, 0, 1]), first_label: 16, keepalive: 180, max_pdu: 4096 }, EdgePlan { name: Name { text: 'b' }, address: Addr([10, 0, 0, 2]), first_label: 16, keepalive: 180, max_pdu: 4096 }] }, services: List { items: [ServicePlan { name: Name { text: 's' }, mtu: 1400, age: 300 }] }, circuits: List { items: [] }, wires: List { items: [WirePlan { name: Name { text: 'w' }, service: ServiceId(0), class: Mesh, path: List { items: [EdgeId(0), EdgeId(1)] }, pw_id: 1, @, priority: 100 }] } }";

const OFFERS: &str = "
priority=100 => near: Offer { tagged: false, cword: true, mtu: Some(1400), vlan: None, vccv: None, status: true, group: 0, description: '' }, far: Offer { tagged: false, cword: true, mtu: Some(1400), vlan: None, vccv: None, status: true, group: 0, description: '' }
near={} => near: Offer { tagged: false, cword: true, mtu: Some(1400), vlan: None, vccv: None, status: true, group: 0, description: '' }, far: Offer { tagged: false, cword: true, mtu: Some(1400), vlan: None, vccv: None, status: true, group: 0, description: '' }
near={mode='tagged'} => near: Offer { tagged: true, cword: true, mtu: Some(1400), vlan: None, vccv: None, status: true, group: 0, description: '' }, far: Offer { tagged: true, cword: true, mtu: Some(1400), vlan: None, vccv: None, status: true, group: 0, description: '' }
near={control_word=false} => near: Offer { tagged: false, cword: false, mtu: Some(1400), vlan: None, vccv: None, status: true, group: 0, description: '' }, far: Offer { tagged: false, cword: false, mtu: Some(1400), vlan: None, vccv: None, status: true, group: 0, description: '' }
near={mtu=9000} => near: Offer { tagged: false, cword: true, mtu: Some(9000), vlan: None, vccv: None, status: true, group: 0, description: '' }, far: Offer { tagged: false, cword: true, mtu: Some(9000), vlan: None, vccv: None, status: true, group: 0, description: '' }
near={mtu=0} => near: Offer { tagged: false, cword: true, mtu: None, vlan: None, vccv: None, status: true, group: 0, description: '' }, far: Offer { tagged: false, cword: true, mtu: None, vlan: None, vccv: None, status: true, group: 0, description: '' }
near={vlan=0} => near: Offer { tagged: false, cword: true, mtu: Some(1400), vlan: Some(0), vccv: None, status: true, group: 0, description: '' }, far: Offer { tagged: false, cword: true, mtu: Some(1400), vlan: Some(0), vccv: None, status: true, group: 0, description: '' }
near={vccv=5} => near: Offer { tagged: false, cword: true, mtu: Some(1400), vlan: None, vccv: Some(5), status: true, group: 0, description: '' }, far: Offer { tagged: false, cword: true, mtu: Some(1400), vlan: None, vccv: Some(5), status: true, group: 0, description: '' }
near={status=false} => near: Offer { tagged: false, cword: true, mtu: Some(1400), vlan: None, vccv: None, status: false, group: 0, description: '' }, far: Offer { tagged: false, cword: true, mtu: Some(1400), vlan: None, vccv: None, status: false, group: 0, description: '' }
near={group='h'} => near: Offer { tagged: false, cword: true, mtu: Some(1400), vlan: None, vccv: None, status: true, group: 9, description: '' }, far: Offer { tagged: false, cword: true, mtu: Some(1400), vlan: None, vccv: None, status: true, group: 9, description: '' }
near={description='near'} => near: Offer { tagged: false, cword: true, mtu: Some(1400), vlan: None, vccv: None, status: true, group: 0, description: Text { octets: [110, 101, 97, 114, 0, 0, 0, 0, 0, 0, 0, 0, 0, 0, 0, 0, 0, 0, 0, 0, 0, 0, 0, 0, 0, 0, 0, 0, 0, 0, 0, 0, 0, 0, 0, 0, 0, 0, 0, 0, 0, 0, 0, 0, 0, 0, 0, 0, 0, 0, 0, 0, 0, 0, 0, 0, 0, 0, 0, 0, 0, 0, 0, 0, 0, 0, 0, 0, 0, 0, 0, 0, 0, 0, 0, 0, 0, 0, 0, 0], len: 4 } }, far: Offer { tagged: false, cword: true, mtu: Some(1400), vlan: None, vccv: None, status: true, group: 0, description: Text { octets: [110, 101, 97, 114, 0, 0, 0, 0, 0, 0, 0, 0, 0, 0, 0, 0, 0, 0, 0, 0, 0, 0, 0, 0, 0, 0, 0, 0, 0, 0, 0, 0, 0, 0, 0, 0, 0, 0, 0, 0, 0, 0, 0, 0, 0, 0, 0, 0, 0, 0, 0, 0, 0, 0, 0, 0, 0, 0, 0, 0, 0, 0, 0, 0, 0, 0, 0, 0, 0, 0, 0, 0, 0, 0, 0, 0, 0, 0, 0, 0], len: 4 } }
far={} => near: Offer { tagged: false, cword: true, mtu: Some(1400), vlan: None, vccv: None, status: true, group: 0, description: '' }, far: Offer { tagged: false, cword: true, mtu: Some(1400), vlan: None, vccv: None, status: true, group: 0, description: '' }
far={mtu=0,vlan=9} => near: Offer { tagged: false, cword: true, mtu: Some(1400), vlan: None, vccv: None, status: true, group: 0, description: '' }, far: Offer { tagged: false, cword: true, mtu: None, vlan: Some(9), vccv: None, status: true, group: 0, description: '' }
near={mode='tagged',control_word=false,mtu=0,vlan=9,vccv=5,status=false,group='g',description='near'},far={} => near: Offer { tagged: true, cword: false, mtu: None, vlan: Some(9), vccv: Some(5), status: false, group: 7, description: Text { octets: [110, 101, 97, 114, 0, 0, 0, 0, 0, 0, 0, 0, 0, 0, 0, 0, 0, 0, 0, 0, 0, 0, 0, 0, 0, 0, 0, 0, 0, 0, 0, 0, 0, 0, 0, 0, 0, 0, 0, 0, 0, 0, 0, 0, 0, 0, 0, 0, 0, 0, 0, 0, 0, 0, 0, 0, 0, 0, 0, 0, 0, 0, 0, 0, 0, 0, 0, 0, 0, 0, 0, 0, 0, 0, 0, 0, 0, 0, 0, 0], len: 4 } }, far: Offer { tagged: false, cword: true, mtu: Some(1400), vlan: None, vccv: None, status: true, group: 0, description: '' }
near={mode='tagged',mtu=9,group='g'},far={group='h'} => near: Offer { tagged: true, cword: true, mtu: Some(9), vlan: None, vccv: None, status: true, group: 7, description: '' }, far: Offer { tagged: false, cword: true, mtu: Some(1400), vlan: None, vccv: None, status: true, group: 9, description: '' }
far={mode='tagged',control_word=false,mtu=9,vlan=4095,vccv=7,status=false,group='g',description='far'} => near: Offer { tagged: false, cword: true, mtu: Some(1400), vlan: None, vccv: None, status: true, group: 0, description: '' }, far: Offer { tagged: true, cword: false, mtu: Some(9), vlan: Some(4095), vccv: Some(7), status: false, group: 7, description: Text { octets: [102, 97, 114, 0, 0, 0, 0, 0, 0, 0, 0, 0, 0, 0, 0, 0, 0, 0, 0, 0, 0, 0, 0, 0, 0, 0, 0, 0, 0, 0, 0, 0, 0, 0, 0, 0, 0, 0, 0, 0, 0, 0, 0, 0, 0, 0, 0, 0, 0, 0, 0, 0, 0, 0, 0, 0, 0, 0, 0, 0, 0, 0, 0, 0, 0, 0, 0, 0, 0, 0, 0, 0, 0, 0, 0, 0, 0, 0, 0, 0], len: 3 } }
";

#[test]
fn reads_the_tables_of_both_ends(rt: HostRuntime) {
    read_as(&rt, rt.alloc(), WITH_OFFERS, PLAN, (LINES, OFFERS, 16));
}
