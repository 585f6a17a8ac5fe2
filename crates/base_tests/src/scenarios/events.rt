//! Events, word by word.

use crate::scenarios::tables::{LINES, WHOLE, read_as};

// A document with an event behind another, and the words of its fault; and one with events alone.
const WITH_EVENT: &str = "version = 1
edge = [{name='a',address='10.0.0.1'},{name='b',address='10.0.0.2'}]
service = [{name='s'}]
circuit = [{name='c',edge='a',service='s'}]
wire = [{name='w',service='s',class='mesh',path=['a','b'],pw_id=1}]
events = ['tick','@']";

const BAD_WORD: &str = "BadWord { event: 2, word: @ }";

const WITH_EVENTS: &str = "version = 1
edge = [{name='a',address='10.0.0.1'},{name='b',address='10.0.0.2'}]
service = [{name='s'}]
circuit = [{name='c',edge='a',service='s'}]
wire = [{name='w',service='s',class='mesh',path=['a','b'],pw_id=1}]
events = ['@']";

// Events and the number of their bad word: events of sessions and ticks, of frames and packets, of wires and circuits, and of
// captures.
const BAD_WORDS: &str = "
connect a => 3
connect a b b => 4
connect a q => 3
connect  a b => 2
hop a => 1
 => 1
deliver a b 0 => 4
deliver a b 65536 => 4
deliver a b 01 => 4
deliver a b => 4
lose q a => 2
restart a a => 3
tick 0 => 2
tick 10001 => 2
tick 1 1 => 3

frame c => 3
frame c 0 => 3
frame c 0g => 3
frame c  => 3
frame a 00 => 2
arrive 0 => 2
arrive 18446744073709551616 => 2
drop => 2
again x => 2

wire a w up => 4
wire a c on => 3
circuit c => 3
circuit c on on => 4
status a w 32 => 4
priority a w 256 => 4
ping a w 1 => 4
settle => 2
flow 0 => 2
play c => 3
play c  => 3
play w x => 2
Tick => 1
";

// Events of sessions, ticks, frames and packets, of wires and circuits, and of captures; and the octets of a frame. The last row
// has too many captures.
const COMMANDS: &str = "
connect a b => 1 commands
deliver a b 1 => 1 commands
deliver b a 65535 => 1 commands
lose a b => 1 commands
restart b => 1 commands
tick => 1 commands
frame c 0aFf => 1 commands
arrive 1 => 1 commands
drop 18446744073709551615 => 1 commands
again 2 => 1 commands

wire a w on => 1 commands
wire a w off => 1 commands
circuit c on => 1 commands
circuit c off => 1 commands
status a w 0 => 1 commands
status a w 31 => 1 commands
priority a w 0 => 1 commands
priority a w 255 => 1 commands
ping b w => 1 commands
settle 1 => 1 commands
settle 10000 => 1 commands
flow 1 => 1 commands
flow 10000 => 1 commands
tick 1 => 1 commands
tick 10000 => 1 commands
play c f => 1 commands
play c ../f.pcap => 1 commands

frame c 0aFf => List { items: [One(Frame { circuit: CircuitId(0), bytes: List { items: [10, 255] } })] }
play c f','play c f','play c f','play c f','tick','play c  => BadWord { event: 6, word: 1 }
";

#[test]
fn tells_the_number_of_each_bad_word(rt: HostRuntime) {
    read_as(
        &rt,
        rt.alloc(),
        WITH_EVENT,
        BAD_WORD,
        (LINES, BAD_WORDS, 37),
    );
}

#[test]
fn reads_commands(rt: HostRuntime) {
    read_as(&rt, rt.alloc(), WITH_EVENTS, WHOLE, (LINES, COMMANDS, 29));
}
