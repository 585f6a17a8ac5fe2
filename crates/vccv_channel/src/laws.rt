//! Laws of echo packets.
ghost use Rattle.std.specs.Prelude.{◌≡◌, ℕ, List, length, false, Ok};
ghost use Rattle.net_values.specs.{declared.addr.Addr.{Addr}, Octets.{AreOctets}};
ghost use Rattle.vccv_channel.specs.{declared.cc.Cc.{Cc}, declared.ping.Ping.{Ping}, declared.echo.Echo.TheVariants.{Request, Answer}};
ghost use Rattle.vccv_channel.specs.{Channel.{has_header, payload}, Echo.{request_packet, answer_packet, IsPing, IsAnswerTo}};
ghost use Rattle.vccv_channel.specs.Reading.{reading, IsRequest};

/// What is written is read, in the control channel of each type: behind the label stack a request says what its ping
/// asks, and the answer to a request has its sequence number. It holds of all numbers that the types hold.
pub fn written_is_read()
    ensures request { (kind : Cc) (ping : Ping) → IsPing ping → reading (has_header kind) ping.number (payload kind (request_packet ping)) ≡ Ok (Request ping.from ping.to ping.sequence 28) }
    ensures answer { (kind : Cc) (number : ℕ) (ip : List ℕ) (from to : Addr) (sequence : ℕ) → AreOctets ip → reading false number ip ≡ Ok (Request from to sequence (length ip)) → reading (has_header kind) number (payload kind (answer_packet ip)) ≡ Ok (Answer sequence) }
{}

/// An answer is the request with its addresses exchanged, TTL 255 and ICMP type 0, and its sums are right.
pub fn answers_exchange()
    ensures { (ip : List ℕ) → AreOctets ip → IsRequest ip → IsAnswerTo ip (answer_packet ip) }
{}
