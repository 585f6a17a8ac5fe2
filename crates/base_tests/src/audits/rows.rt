//! Reports, and what is told of each. The answers are those of another program that judges by the same rules. A row is a line that
//! begins with `# ` and ends in why the audit of its report stops, behind ` = `; and the report, up to the next `# `.

/// The plan that the reports are of.
pub const PLAN: &str = r#"
version = 1
edge = [{ name = "a", address = "10.0.0.1" }, { name = "b", address = "10.0.0.2" }, { name = "c", address = "10.0.0.3" }, { name = "d", address = "10.0.0.4" }]
service = [{ name = "s" }, { name = "t" }]
circuit = [{ name = "c1", edge = "a", service = "s" }, { name = "c2", edge = "a", service = "s" }, { name = "c3", edge = "b", service = "s", tag = 5 }, { name = "d1", edge = "a", service = "t" }]
wire = [{ name = "m", service = "s", class = "mesh", path = ["a", "b"], pw_id = 1 }, { name = "n", service = "s", class = "mesh", path = ["a", "b", "c"], pw_id = 2 }, { name = "p", service = "s", class = "spoke", path = ["d", "b"], pw_id = 3 }]
"#;

/// One thing is wrong in each report, or none.
pub const ROWS: &str = "# A run of nothing. = None
vplsnet 1
end events=0 in=0 left=0 sent=0 dropped=0
# A flooded frame. = None
vplsnet 1
> frame c1 ffffffffffff0200000000010800
in c1 1 ffffffffffff0200000000010800
left c2 1 0 ffffffffffff0200000000010800
end events=1 in=1 left=1 sent=0 dropped=0
# A frame of no number. = Some(Isolated { line: 4 })
vplsnet 1
> frame c1 ffffffffffff0200000000010800
in c1 1 ffffffffffff0200000000010800
left c2 2 0 ffffffffffff0200000000010800
end events=1 in=1 left=1 sent=0 dropped=0
# A frame that left before it entered. = Some(Isolated { line: 3 })
vplsnet 1
> frame c1 ffffffffffff0200000000010800
left c2 1 0 ffffffffffff0200000000010800
in c1 1 ffffffffffff0200000000010800
end events=1 in=1 left=1 sent=0 dropped=0
# A frame in another service. = Some(Isolated { line: 4 })
vplsnet 1
> frame c1 ffffffffffff0200000000010800
in c1 1 ffffffffffff0200000000010800
left d1 1 0 ffffffffffff0200000000010800
end events=1 in=1 left=1 sent=0 dropped=0
# A frame with another octet. = Some(Isolated { line: 4 })
vplsnet 1
> frame c1 ffffffffffff0200000000010800
in c1 1 ffffffffffff0200000000010800
left c2 1 0 ffffffffffff0200000000010801
end events=1 in=1 left=1 sent=0 dropped=0
# A frame whose tag was put back. = None
vplsnet 1
> frame c1 ffffffffffff0200000000010800
in c1 1 ffffffffffff0200000000010800
left c3 1 1 ffffffffffff020000000001810000050800
end events=1 in=1 left=1 sent=0 dropped=0
# A frame whose tag was not put back. = Some(Isolated { line: 4 })
vplsnet 1
> frame c1 ffffffffffff0200000000010800
in c1 1 ffffffffffff0200000000010800
left c3 1 1 ffffffffffff0200000000010800
end events=1 in=1 left=1 sent=0 dropped=0
# Two frames of one number. = None
vplsnet 1
> frame c1 ffffffffffff0200000000010800
in c1 7 ffffffffffff0200000000010800
in c2 7 ffffffffffff0200000000010801
left c2 7 0 ffffffffffff0200000000010800
left c1 7 0 ffffffffffff0200000000010801
end events=1 in=2 left=2 sent=0 dropped=0
# A frame that is too short. = Some(Isolated { line: 2 })
vplsnet 1
left c2 1 0 ffffffffffff020000000001
end events=0 in=0 left=1 sent=0 dropped=0
# From mesh to mesh. = Some(Split { line: 3 })
vplsnet 1
sent 1 a b m c1 1 1 00
sent 2 a b m n 1 1 00
end events=0 in=0 left=0 sent=2 dropped=0
# Back by the same wire at its end. = Some(Split { line: 2 })
vplsnet 1
sent 1 a b n n 1 1 00
end events=0 in=0 left=0 sent=1 dropped=0
# On along the same wire at a switching point. = None
vplsnet 1
sent 1 b c n n 1 1 00
end events=0 in=0 left=0 sent=1 dropped=0
# Spokes and pings. = None
vplsnet 1
sent 1 b d p n 1 1 00
sent 2 b a m p 1 1 00
sent 3 a b m - 0 1 00
end events=0 in=0 left=0 sent=3 dropped=0
# Both rules: the lower one is told. = Some(Isolated { line: 3 })
vplsnet 1
sent 1 a b m n 1 1 00
left c2 2 0 ffffffffffff0200000000010800
end events=0 in=0 left=1 sent=1 dropped=0
# An empty text. = Some(Form { line: 1 })
# Another format. = Some(Form { line: 1 })
vplsnet 2
# No last line. = Some(Form { line: 2 })
vplsnet 1
# No line feed. = Some(Form { line: 1 })
vplsnet 1# A text that ends within a line. = Some(Form { line: 3 })
vplsnet 1
idle
end events=0# Wrong counts. = Some(Form { line: 4 })
vplsnet 1
> frame c1 ffffffffffff0200000000010800
in c1 1 ffffffffffff0200000000010800
end events=1 in=1 left=1 sent=0 dropped=0
# A line of another plan. = Some(Form { line: 2 })
vplsnet 1
> frame x1 ffffffffffff0200000000010800
end events=1 in=0 left=0 sent=0 dropped=0
# The largest number. = None
vplsnet 1
copied 18446744073709551615 1
end events=0 in=0 left=0 sent=0 dropped=0
# A number too large. = Some(Form { line: 2 })
vplsnet 1
copied 18446744073709551616 1
end events=0 in=0 left=0 sent=0 dropped=0
# A leading zero. = Some(Form { line: 2 })
vplsnet 1
copied 01 1
end events=0 in=0 left=0 sent=0 dropped=0
# Capital letters. = Some(Form { line: 2 })
vplsnet 1
said a b 0A
end events=0 in=0 left=0 sent=0 dropped=0
# Half an octet. = Some(Form { line: 2 })
vplsnet 1
said a b 0
end events=0 in=0 left=0 sent=0 dropped=0
# No octets. = None
vplsnet 1
said a b\u{20}
end events=0 in=0 left=0 sent=0 dropped=0
# No word of octets. = Some(Form { line: 2 })
vplsnet 1
said a b
end events=0 in=0 left=0 sent=0 dropped=0
# A frame of no octets. = None
vplsnet 1
> frame c1\u{20}
end events=1 in=0 left=0 sent=0 dropped=0
# And without its blank. = Some(Form { line: 2 })
vplsnet 1
> frame c1
end events=1 in=0 left=0 sent=0 dropped=0
# A delivery of nothing. = Some(Form { line: 2 })
vplsnet 1
> deliver a b 0
end events=1 in=0 left=0 sent=0 dropped=0
# Of too much. = Some(Form { line: 2 })
vplsnet 1
> deliver a b 65536
end events=1 in=0 left=0 sent=0 dropped=0
# No failure bits. = Some(Form { line: 2 })
vplsnet 1
> status a m 32
end events=1 in=0 left=0 sent=0 dropped=0
# A command of many events. = Some(Form { line: 2 })
vplsnet 1
> settle 3
end events=1 in=0 left=0 sent=0 dropped=0
# And another one. = Some(Form { line: 2 })
vplsnet 1
> tick 2
end events=1 in=0 left=0 sent=0 dropped=0
# A tick. = None
vplsnet 1
> tick
end events=1 in=0 left=0 sent=0 dropped=0
# No packet. = Some(Form { line: 2 })
vplsnet 1
> arrive 0
end events=1 in=0 left=0 sent=0 dropped=0
# A sequence number too large. = Some(Form { line: 2 })
vplsnet 1
pong a m 65536
end events=0 in=0 left=0 sent=0 dropped=0
# A blank too many. = Some(Form { line: 2 })
vplsnet 1
idle\u{20}
end events=0 in=0 left=0 sent=0 dropped=0
# A run that stopped. = None
vplsnet 1
idle
stop Crowded 65536
# At any number. = None
vplsnet 1
idle
stop TooMuch 99999999999999999999999
# And no leading zero. = Some(Form { line: 3 })
vplsnet 1
idle
stop TooMuch 07
# A last line in the middle. = Some(Form { line: 3 })
vplsnet 1
stop Crowded 1
idle
end events=0 in=0 left=0 sent=0 dropped=0
# Two last lines. = Some(Form { line: 3 })
vplsnet 1
end events=0 in=0 left=0 sent=0 dropped=0
end events=0 in=0 left=0 sent=0 dropped=0
# Lines of all kinds. = None
vplsnet 1
session a b Ended:Closed
session b a Operational
wire a m up
wire b n Standby
dropped a 0 LinkFault
aged 3
> wire a m off
> circuit c1 on
> priority d p 255
> ping a m
> connect a b
> lose a b
> restart a
> drop 1
> again 2
end events=9 in=0 left=0 sent=0 dropped=1
# No reason. = Some(Form { line: 2 })
vplsnet 1
session a b Ended
end events=0 in=0 left=0 sent=0 dropped=0
";
