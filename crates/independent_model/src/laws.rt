//! How calls end.
ghost use Rattle.independent_model.specs.Stops.{CallsEnd, HearsParsed};

/// A call of an edge ends by `Link` exactly where a put of it has failed, and puts nothing after that; where it goes on, or octets are
/// refused, each of its puts was taken.
pub fn calls_end()
    ensures { CallsEnd }
{}

/// The octets that are held of a peer and come are PDUs one after another with one ending: a call refuses them exactly where this is a fault,
/// by that fault at its place in the stream, and goes on where it is a proper prefix of a PDU, unless a put has failed before (RFC 5036
/// section 3.1).
pub fn hears_parsed()
    ensures { HearsParsed }
{}
