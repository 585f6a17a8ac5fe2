//! What holds of the octets of every PDU.
ghost use Rattle.ldp_grammar.specs.{FirstFault.{OneReading}, Reading.{EachIsRead}, Written.{WrittenIsRead, WrittenIsShort}};

/// Octets spell one PDU at most, have one first fault at most, and never both. The maximum is one of a session, at
/// most 4096.
pub fn one_reading()
    ensures { OneReading }
{}

/// Octets spell a PDU or have a first fault: of all octets the law tells one of the two, for each maximum of a session,
/// at most 4096 (RFC 5036 section 3.1).
pub fn each_is_read()
    ensures { EachIsRead }
{}

/// A message that can be written, and whose fields fit, is what its written octets spell, for each maximum that they
/// keep to; and the octets of no PDU are the front of another's.
pub fn written_is_read()
    ensures { WrittenIsRead }
{}

/// A message without addresses and with at most 16 MAC addresses, whose fields fit, has a PDU Length of at most 256 in a PDU
/// of its own, which every maximum of a session allows (RFC 5036 section 3.5.3).
pub fn written_is_short()
    ensures { WrittenIsShort }
{}
