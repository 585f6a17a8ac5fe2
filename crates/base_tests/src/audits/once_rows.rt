//! Reports of flooded frames, and what is told of each. The answers are those of another program that judges by the same rules.

/// The plan that the reports are of: two edges, three circuits of a service, and one of another one.
pub const PLAN: &str = r#"
version = 1
edge = [{ name = "a", address = "10.0.0.1" }, { name = "b", address = "10.0.0.2" }]
service = [{ name = "s" }, { name = "t" }]
circuit = [{ name = "c1", edge = "a", service = "s" }, { name = "c2", edge = "a", service = "s" }, { name = "c3", edge = "b", service = "s", tag = 5 }, { name = "d1", edge = "a", service = "t" }]
wire = [{ name = "m", service = "s", class = "mesh", path = ["a", "b"], pw_id = 1 }]
"#;

/// Two core edges with a mesh wire, and a spoke edge with a spoke to each.
pub const SPOKES: &str = r#"
version = 1
edge = [{ name = "a", address = "10.0.0.1" }, { name = "b", address = "10.0.0.2" }, { name = "x", address = "10.0.0.3" }]
service = [{ name = "s" }]
circuit = [{ name = "ca", edge = "a", service = "s" }, { name = "cx", edge = "x", service = "s" }]
wire = [{ name = "m", service = "s", class = "mesh", path = ["a", "b"], pw_id = 1 }, { name = "xa", service = "s", class = "spoke", path = ["x", "a"], pw_id = 2, priority = 10 }, { name = "xb", service = "s", class = "spoke", path = ["x", "b"], pw_id = 3, priority = 20 }]
"#;

/// Of `SPOKES`: a frame that leaves nowhere, over one spoke that is up at both ends, over two, and over none.
pub const OVER_SPOKES: &str = "# Exactly one: calm. = Some(Once { line: 7 })
vplsnet 1
wire a m up
wire b m up
wire x xa up
wire a xa up
> frame cx ffffffffffff0200000000010800
in cx 1 ffffffffffff0200000000010800
end events=1 in=1 left=0 sent=0 dropped=0
# Two: not calm. = None
vplsnet 1
wire a m up
wire b m up
wire x xa up
wire a xa up
wire x xb up
wire b xb up
> frame cx ffffffffffff0200000000010800
in cx 1 ffffffffffff0200000000010800
end events=1 in=1 left=0 sent=0 dropped=0
# One end of each: not calm. = None
vplsnet 1
wire a m up
wire b m up
wire x xa up
wire b xb up
> frame cx ffffffffffff0200000000010800
in cx 1 ffffffffffff0200000000010800
end events=1 in=1 left=0 sent=0 dropped=0
";

/// What is seen of a flooded frame, with one thing other in each report.
pub const ROWS: &str = "# Once at each other circuit. = None
vplsnet 1
wire a m up
wire b m up
> frame c1 ffffffffffff0200000000010800
in c1 1 ffffffffffff0200000000010800
left c2 1 0 ffffffffffff0200000000010800
sent 1 a b m c1 1 1 00
> arrive 1
left c3 1 1 ffffffffffff020000000001810000050800
end events=2 in=1 left=2 sent=1 dropped=0
# One was left out. = Some(Once { line: 5 })
vplsnet 1
wire a m up
wire b m up
> frame c1 ffffffffffff0200000000010800
in c1 1 ffffffffffff0200000000010800
sent 1 a b m c1 1 1 00
> arrive 1
left c3 1 1 ffffffffffff020000000001810000050800
end events=2 in=1 left=1 sent=1 dropped=0
# One was left out at the other edge. = Some(Once { line: 5 })
vplsnet 1
wire a m up
wire b m up
> frame c1 ffffffffffff0200000000010800
in c1 1 ffffffffffff0200000000010800
left c2 1 0 ffffffffffff0200000000010800
sent 1 a b m c1 1 1 00
> arrive 1
end events=2 in=1 left=1 sent=1 dropped=0
# Twice at one circuit. = Some(Once { line: 5 })
vplsnet 1
wire a m up
wire b m up
> frame c1 ffffffffffff0200000000010800
in c1 1 ffffffffffff0200000000010800
left c2 1 0 ffffffffffff0200000000010800
sent 1 a b m c1 1 1 00
> arrive 1
left c3 1 1 ffffffffffff020000000001810000050800
left c2 1 0 ffffffffffff0200000000010800
end events=2 in=1 left=3 sent=1 dropped=0
# Back at the sender. = Some(Once { line: 5 })
vplsnet 1
wire a m up
wire b m up
> frame c1 ffffffffffff0200000000010800
in c1 1 ffffffffffff0200000000010800
left c2 1 0 ffffffffffff0200000000010800
sent 1 a b m c1 1 1 00
> arrive 1
left c3 1 1 ffffffffffff020000000001810000050800
left c1 1 0 ffffffffffff0200000000010800
end events=2 in=1 left=3 sent=1 dropped=0
# Twelve segments, and thirteen. = None
vplsnet 1
wire a m up
wire b m up
> frame c1 ffffffffffff0200000000010800
in c1 1 ffffffffffff0200000000010800
left c2 1 0 ffffffffffff0200000000010800
sent 1 a b m c1 1 1 00
> arrive 1
left c3 1 12 ffffffffffff020000000001810000050800
end events=2 in=1 left=2 sent=1 dropped=0
# Thirteen segments. = Some(Once { line: 5 })
vplsnet 1
wire a m up
wire b m up
> frame c1 ffffffffffff0200000000010800
in c1 1 ffffffffffff0200000000010800
left c2 1 0 ffffffffffff0200000000010800
sent 1 a b m c1 1 1 00
> arrive 1
left c3 1 13 ffffffffffff020000000001810000050800
end events=2 in=1 left=2 sent=1 dropped=0
# A wire that is up at one end alone: not calm. = None
vplsnet 1
wire a m up
> frame c1 ffffffffffff0200000000010800
in c1 1 ffffffffffff0200000000010800
sent 1 a b m c1 1 1 00
> arrive 1
left c3 1 1 ffffffffffff020000000001810000050800
end events=2 in=1 left=1 sent=1 dropped=0
# A wire that went down again. = None
vplsnet 1
wire a m up
wire b m up
wire b m RemoteFault
> frame c1 ffffffffffff0200000000010800
in c1 1 ffffffffffff0200000000010800
sent 1 a b m c1 1 1 00
> arrive 1
left c3 1 1 ffffffffffff020000000001810000050800
end events=2 in=1 left=1 sent=1 dropped=0
# A connection that is half open: not calm. = None
vplsnet 1
wire a m up
wire b m up
> connect a b
session b a Ended:Closed
> frame c1 ffffffffffff0200000000010800
in c1 1 ffffffffffff0200000000010800
sent 1 a b m c1 1 1 00
> arrive 1
left c3 1 1 ffffffffffff020000000001810000050800
end events=3 in=1 left=1 sent=1 dropped=0
# A connection with both ends. = Some(Once { line: 6 })
vplsnet 1
wire a m up
wire b m up
> connect a b
> frame c1 ffffffffffff0200000000010800
in c1 1 ffffffffffff0200000000010800
sent 1 a b m c1 1 1 00
> arrive 1
left c3 1 1 ffffffffffff020000000001810000050800
end events=3 in=1 left=1 sent=1 dropped=0
# A connection that was not made. = Some(Once { line: 7 })
vplsnet 1
wire a m up
wire b m up
> connect a b
idle
> frame c1 ffffffffffff0200000000010800
in c1 1 ffffffffffff0200000000010800
sent 1 a b m c1 1 1 00
> arrive 1
left c3 1 1 ffffffffffff020000000001810000050800
end events=3 in=1 left=1 sent=1 dropped=0
# Octets on their way: not calm. = None
vplsnet 1
wire a m up
wire b m up
> connect a b
said a b 0001
> frame c1 ffffffffffff0200000000010800
in c1 1 ffffffffffff0200000000010800
sent 1 a b m c1 1 1 00
> arrive 1
left c3 1 1 ffffffffffff020000000001810000050800
end events=3 in=1 left=1 sent=1 dropped=0
# Octets that an edge holds: not calm. = None
vplsnet 1
wire a m up
wire b m up
> connect a b
said a b 0001
> deliver a b 2
> frame c1 ffffffffffff0200000000010800
in c1 1 ffffffffffff0200000000010800
sent 1 a b m c1 1 1 00
> arrive 1
left c3 1 1 ffffffffffff020000000001810000050800
end events=4 in=1 left=1 sent=1 dropped=0
# A whole PDU is not held. = Some(Once { line: 8 })
vplsnet 1
wire a m up
wire b m up
> connect a b
said a b 000100020a00
> deliver a b 65535
> frame c1 ffffffffffff0200000000010800
in c1 1 ffffffffffff0200000000010800
sent 1 a b m c1 1 1 00
> arrive 1
left c3 1 1 ffffffffffff020000000001810000050800
end events=4 in=1 left=1 sent=1 dropped=0
# A PDU and a front of the next one. = None
vplsnet 1
wire a m up
wire b m up
> connect a b
said a b 000100020a000001
> deliver a b 65535
> frame c1 ffffffffffff0200000000010800
in c1 1 ffffffffffff0200000000010800
sent 1 a b m c1 1 1 00
> arrive 1
left c3 1 1 ffffffffffff020000000001810000050800
end events=4 in=1 left=1 sent=1 dropped=0
# Octets towards an end that is gone. = Some(Once { line: 6 })
vplsnet 1
wire a m up
wire b m up
said a b 0001
> frame c1 ffffffffffff0200000000010800
in c1 1 ffffffffffff0200000000010800
sent 1 a b m c1 1 1 00
> arrive 1
left c3 1 1 ffffffffffff020000000001810000050800
end events=2 in=1 left=1 sent=1 dropped=0
# An edge that began again has no wire up. = None
vplsnet 1
wire a m up
wire b m up
> restart b
> frame c1 ffffffffffff0200000000010800
in c1 1 ffffffffffff0200000000010800
sent 1 a b m c1 1 1 00
> arrive 1
left c3 1 1 ffffffffffff020000000001810000050800
end events=3 in=1 left=1 sent=1 dropped=0
# A copy was lost. = None
vplsnet 1
wire a m up
wire b m up
> frame c1 ffffffffffff0200000000010800
in c1 1 ffffffffffff0200000000010800
left c2 1 0 ffffffffffff0200000000010800
sent 1 a b m c1 1 1 00
> drop 1
end events=2 in=1 left=1 sent=1 dropped=0
# A copy came twice. = None
vplsnet 1
wire a m up
wire b m up
> frame c1 ffffffffffff0200000000010800
in c1 1 ffffffffffff0200000000010800
left c2 1 0 ffffffffffff0200000000010800
sent 1 a b m c1 1 1 00
> again 1
copied 2 1
> arrive 1
left c3 1 1 ffffffffffff020000000001810000050800
> arrive 2
left c3 1 1 ffffffffffff020000000001810000050800
end events=4 in=1 left=3 sent=1 dropped=0
# A drop of no packet. = Some(Once { line: 5 })
vplsnet 1
wire a m up
wire b m up
> frame c1 ffffffffffff0200000000010800
in c1 1 ffffffffffff0200000000010800
sent 1 a b m c1 1 1 00
> drop 9
idle
> arrive 1
left c3 1 1 ffffffffffff020000000001810000050800
end events=3 in=1 left=1 sent=1 dropped=0
# A drop of its packet that did not apply. = Some(Once { line: 5 })
vplsnet 1
wire a m up
wire b m up
> frame c1 ffffffffffff0200000000010800
in c1 1 ffffffffffff0200000000010800
sent 1 a b m c1 1 1 00
> drop 1
idle
> arrive 1
left c3 1 1 ffffffffffff020000000001810000050800
end events=3 in=1 left=1 sent=1 dropped=0
# A tick within: no window. = None
vplsnet 1
wire a m up
wire b m up
> frame c1 ffffffffffff0200000000010800
in c1 1 ffffffffffff0200000000010800
sent 1 a b m c1 1 1 00
> tick
> arrive 1
left c3 1 1 ffffffffffff020000000001810000050800
end events=3 in=1 left=1 sent=1 dropped=0
# Another frame within. = Some(Once { line: 5 })
vplsnet 1
wire a m up
wire b m up
> frame c1 ffffffffffff0200000000010800
in c1 1 ffffffffffff0200000000010800
sent 1 a b m c1 1 1 00
> frame d1 ffffffffffff0200000000010800
in d1 2 ffffffffffff0200000000010800
> arrive 1
left c3 1 1 ffffffffffff020000000001810000050800
end events=3 in=2 left=1 sent=1 dropped=0
# No copy arrived. = None
vplsnet 1
wire a m up
wire b m up
> frame c1 ffffffffffff0200000000010800
in c1 1 ffffffffffff0200000000010800
left c2 1 0 ffffffffffff0200000000010800
sent 1 a b m c1 1 1 00
end events=1 in=1 left=1 sent=1 dropped=0
# An address that no frame came from. = Some(Once { line: 5 })
vplsnet 1
wire a m up
wire b m up
> frame c1 0200000000090200000000010800
in c1 1 0200000000090200000000010800
sent 1 a b m c1 1 1 00
> arrive 1
left c3 1 1 020000000009020000000001810000050800
end events=2 in=1 left=1 sent=1 dropped=0
# An address that a frame came from. = None
vplsnet 1
wire a m up
wire b m up
> frame c1 ffffffffffff0200000000010800
in c1 1 ffffffffffff0200000000010800
left c2 1 0 ffffffffffff0200000000010800
sent 1 a b m c1 1 1 00
> arrive 1
left c3 1 1 ffffffffffff020000000001810000050800
> frame c1 0200000000010200000000020800
in c1 2 0200000000010200000000020800
sent 2 a b m c1 2 1 00
> arrive 2
end events=4 in=2 left=2 sent=2 dropped=0
# An address that a frame came from in another service. = Some(Once { line: 7 })
vplsnet 1
> frame d1 ffffffffffff0200000000010800
in d1 1 ffffffffffff0200000000010800
wire a m up
wire b m up
> frame c1 0200000000010200000000020800
in c1 2 0200000000010200000000020800
sent 1 a b m c1 2 1 00
> arrive 1
left c3 2 1 020000000001020000000002810000050800
end events=3 in=2 left=1 sent=1 dropped=0
# An address that a frame came from meanwhile. = Some(Once { line: 8 })
vplsnet 1
wire a m up
wire b m up
> frame c1 0200000000090200000000010800
in c1 1 0200000000090200000000010800
sent 1 a b m c1 1 1 00
> frame c2 ffffffffffff0200000000090800
in c2 2 ffffffffffff0200000000090800
dropped a 2 Down
> arrive 1
end events=3 in=2 left=0 sent=1 dropped=1
# A circuit that is off has nothing due. = None
vplsnet 1
wire a m up
wire b m up
> circuit c2 off
> frame c1 ffffffffffff0200000000010800
in c1 1 ffffffffffff0200000000010800
sent 1 a b m c1 1 1 00
> arrive 1
left c3 1 1 ffffffffffff020000000001810000050800
end events=3 in=1 left=1 sent=1 dropped=0
# And nothing may leave there. = Some(Once { line: 6 })
vplsnet 1
wire a m up
wire b m up
> circuit c2 off
> frame c1 ffffffffffff0200000000010800
in c1 1 ffffffffffff0200000000010800
left c2 1 0 ffffffffffff0200000000010800
sent 1 a b m c1 1 1 00
> arrive 1
left c3 1 1 ffffffffffff020000000001810000050800
end events=3 in=1 left=2 sent=1 dropped=0
# A sender that is off. = None
vplsnet 1
wire a m up
wire b m up
> circuit c1 off
> frame c1 ffffffffffff0200000000010800
in c1 1 ffffffffffff0200000000010800
sent 1 a b m c1 1 1 00
> arrive 1
left c3 1 1 ffffffffffff020000000001810000050800
end events=3 in=1 left=1 sent=1 dropped=0
# A circuit that was off already. = Some(Once { line: 7 })
vplsnet 1
wire a m up
wire b m up
> circuit c2 off
idle
> frame c1 ffffffffffff0200000000010800
in c1 1 ffffffffffff0200000000010800
sent 1 a b m c1 1 1 00
> arrive 1
left c3 1 1 ffffffffffff020000000001810000050800
end events=3 in=1 left=1 sent=1 dropped=0
# A frame that is too short. = None
vplsnet 1
wire a m up
wire b m up
> frame c1 ffffffffffff020000000001
in c1 1 ffffffffffff020000000001
dropped a 1 Short
end events=1 in=1 left=0 sent=0 dropped=1
# A service of one circuit. = None
vplsnet 1
> frame d1 ffffffffffff0200000000010800
in d1 1 ffffffffffff0200000000010800
end events=1 in=1 left=0 sent=0 dropped=0
# Two windows: the first is told. = Some(Once { line: 5 })
vplsnet 1
wire a m up
wire b m up
> frame c1 ffffffffffff0200000000010800
in c1 1 ffffffffffff0200000000010800
sent 1 a b m c1 1 1 00
> arrive 1
left c3 1 1 ffffffffffff020000000001810000050800
> frame c1 ffffffffffff0200000000010800
in c1 2 ffffffffffff0200000000010800
sent 2 a b m c1 2 1 00
> arrive 2
left c3 2 1 ffffffffffff020000000001810000050800
end events=4 in=2 left=2 sent=2 dropped=0
# The first of two is served later. = Some(Once { line: 10 })
vplsnet 1
wire a m up
wire b m up
> frame c1 ffffffffffff0200000000010800
in c1 1 ffffffffffff0200000000010800
sent 1 a b m c1 1 1 00
> arrive 1
left c3 1 1 ffffffffffff020000000001810000050800
> frame c1 ffffffffffff0200000000010800
in c1 2 ffffffffffff0200000000010800
sent 2 a b m c1 2 1 00
> arrive 2
left c3 2 1 ffffffffffff020000000001810000050800
left c2 1 0 ffffffffffff0200000000010800
end events=4 in=2 left=3 sent=2 dropped=0
# A frame that left behind its window. = None
vplsnet 1
wire a m up
wire b m up
> frame c1 ffffffffffff0200000000010800
in c1 1 ffffffffffff0200000000010800
sent 1 a b m c1 1 1 00
> arrive 1
left c3 1 1 ffffffffffff020000000001810000050800
> tick
left c2 1 0 ffffffffffff0200000000010800
end events=3 in=1 left=2 sent=1 dropped=0
# A number that two frames have. = Some(Once { line: 5 })
vplsnet 1
wire a m up
wire b m up
> frame c1 ffffffffffff0200000000010800
in c1 1 ffffffffffff0200000000010800
sent 1 a b m c1 1 1 00
> arrive 1
left c3 1 1 ffffffffffff020000000001810000050800
> frame c1 ffffffffffff0200000000010800
in c1 1 ffffffffffff0200000000010800
left c2 1 0 ffffffffffff0200000000010800
sent 2 a b m c1 1 1 00
> arrive 2
left c3 1 1 ffffffffffff020000000001810000050800
end events=4 in=2 left=3 sent=2 dropped=0
# Isolated comes first. = Some(Isolated { line: 9 })
vplsnet 1
wire a m up
wire b m up
> frame c1 ffffffffffff0200000000010800
in c1 1 ffffffffffff0200000000010800
sent 1 a b m c1 1 1 00
> arrive 1
left c3 1 1 ffffffffffff020000000001810000050800
left c2 7 0 ffffffffffff0200000000010800
end events=2 in=1 left=2 sent=1 dropped=0
# Split comes first. = Some(Split { line: 9 })
vplsnet 1
wire a m up
wire b m up
> frame c1 ffffffffffff0200000000010800
in c1 1 ffffffffffff0200000000010800
sent 1 a b m c1 1 1 00
> arrive 1
left c3 1 1 ffffffffffff020000000001810000050800
sent 5 a b m m 9 1 00
end events=2 in=1 left=1 sent=2 dropped=0
# Form comes first. = Some(Form { line: 9 })
vplsnet 1
wire a m up
wire b m up
> frame c1 ffffffffffff0200000000010800
in c1 1 ffffffffffff0200000000010800
sent 1 a b m c1 1 1 00
> arrive 1
left c3 1 1 ffffffffffff020000000001810000050800
left c2 7 0
end events=2 in=1 left=2 sent=1 dropped=0
# A frame that entered behind other entries. = Some(Once { line: 7 })
vplsnet 1
wire a m up
wire b m up
> frame c1 ffffffffffff0200000000010800
dropped a 0 Down
in c2 4 ffffffffffff0200000000010800
in c1 5 ffffffffffff0200000000010800
left c2 5 0 ffffffffffff0200000000010800
end events=1 in=2 left=1 sent=0 dropped=1
# A packet number that is told again. = Some(Once { line: 5 })
vplsnet 1
wire a m up
wire b m up
> frame c1 ffffffffffff0200000000010800
in c1 1 ffffffffffff0200000000010800
sent 1 a b m c1 1 1 00
sent 1 a b m - 0 1 00
> arrive 1
left c3 1 1 ffffffffffff020000000001810000050800
end events=2 in=1 left=1 sent=2 dropped=0
# A packet that grew too old. = Some(Once { line: 5 })
vplsnet 1
wire a m up
wire b m up
> frame c1 ffffffffffff0200000000010800
in c1 1 ffffffffffff0200000000010800
sent 1 a b m c1 1 1 00
aged 1
end events=1 in=1 left=0 sent=1 dropped=0
# An event that is told idle later on. = None
vplsnet 1
wire a m up
wire b m up
> frame c1 ffffffffffff0200000000010800
in c1 1 ffffffffffff0200000000010800
sent 1 a b m c1 1 1 00
> restart b
dropped b 0 Down
idle
> arrive 1
left c3 1 1 ffffffffffff020000000001810000050800
end events=3 in=1 left=1 sent=1 dropped=1
";
