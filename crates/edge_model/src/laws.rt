//! What holds of the work of every edge.
ghost use Rattle.edge_model.specs.{Aging.{AddressesLastTheirAge}, Apart.{EchoesStayApart}};
ghost use Rattle.edge_model.specs.{Local.{FramesStayLocal, PacketsStayLocal, PingsStayLocal}, Mended.{MendsAtOnce}};
ghost use Rattle.edge_model.specs.{Parts.{EdgeHearsInParts}, Passed.{WithdrawalsGoOn}, Released.{MindsOwnReleases}};
ghost use Rattle.edge_model.specs.{Restarted.{RestartsKeepSettings}, Rising.{EndPlacesRise}, StandbyBit.{SpokesAloneStandBy}};

/// Local isolation of frames: what an edge lets leave on a frame of a circuit leaves at another circuit of that circuit's
/// service, as that circuit's dress of the same inner frame; and what it sends, it sends on a wire of the same service
/// (RFC 4762 section 4).
#[tactic(auto, using(crate::proofs::LocalLemmas::stays_local))]
pub fn frames_stay_local()
    ensures { FramesStayLocal }
{}

/// Local isolation of packets: what an edge lets leave on a packet leaves at a circuit of the service of the wire whose label
/// the packet has, as that circuit's dress of the packet's inner frame; and what it sends, it sends on another wire of the same
/// service, and never from a mesh wire on a mesh wire (RFC 4762 sections 4 and 4.4). What it sends of itself is the answer to an echo
/// request, on the wire by which that came (RFC 5085 section 3).
#[tactic(auto, using(crate::proofs::PacketLemmas::packets_stay_local))]
pub fn packets_stay_local()
    ensures { PacketsStayLocal }
{}

/// Local isolation of pings: no frame leaves, and whatever an edge sends is an echo request on the wire that is pinged, to its far
/// terminal edge, in the control channel that both ends have told, with the sequence number that comes next (RFC 5085 section 5).
#[tactic(auto, using(crate::proofs::PingLemmas::pings_stay_local))]
pub fn pings_stay_local()
    ensures { PingsStayLocal }
{}

/// An echo packet is never unpacked as a frame (RFC 5085 sections 3 and 5): what comes in the control channel of a pseudowire,
/// behind an associated channel header (type 1), behind a router alert label (type 2), or with a TTL that ends at the edge which
/// has picked that (type 3), no bridge hears and no circuit lets out, in every state and whatever the link answers. It is dropped, it is told as
/// the answer to a ping of its own wire, or it is a request, and its answer goes back by the end by which it came.
#[tactic(auto, using(crate::proofs::ApartLemmas::echoes_stay_apart))]
pub fn echoes_stay_apart()
    ensures { EchoesStayApart }
{}

/// A joined piece of octets is heard like its two parts in turn, what is left of the first in front of the second, and all
/// of it given up once the session has ended: whatever the link answers, and whatever the maximum becomes between two PDUs.
/// The octets are octets, and the maximum of each session is at most 4096, as it is at each edge that comes about (RFC 5036
/// section 3.5.3).
#[tactic(auto, using(crate::proofs::PartsLemmas::heard_in_parts))]
pub fn heard_in_parts()
    ensures { EdgeHearsInParts }
{}

/// A Label Release of another label than that of the end which its FEC names, or whose FEC names none, changes nothing: the
/// edge, its calls and what it gives out stay as they are, and all that comes of the message before the edge mends is what its
/// session makes of any message (RFC 5036 section 3.5.11).
#[tactic(auto, using(crate::proofs::ReleaseLemmas::minds_own_releases))]
pub fn minds_own_releases()
    ensures { MindsOwnReleases }
{}

/// Of the standby bit that a peer tells only a core edge's end of a spoke takes heed: why a mesh wire's end does not forward, or
/// an end at a spoke edge, is the same with the bit as without it, in every state (RFC 6870).
#[tactic(auto, using(crate::proofs::StandbyLemmas::spokes_alone_stand_by))]
pub fn spokes_alone_stand_by()
    ensures { SpokesAloneStandBy }
{}

/// What a bridge learns lasts exactly its age where nothing else comes than ticks: an address that was heard in the tick of now is
/// gone once as many have passed as the age limit of its service says. Before, it stands: at a circuit whatever the link answers,
/// and by a wire whose end forwards after each tick where the link takes each message (RFC 4762 section 9.1).
#[tactic(auto, using(crate::proofs::AgeLemmas::addresses_last_their_age))]
pub fn addresses_last_their_age()
    ensures { AddressesLastTheirAge }
{}

/// An edge that mends right after it has mended changes nothing, calls its link no more and gives out nothing more: in every
/// state, whatever the link answers, over every plan whose paths have edges of the plan, each once, as each checked plan has
/// (RFC 8077 sections 6 and 6.3).
#[tactic(auto, using(crate::proofs::AgainLemmas::mends_at_once))]
pub fn mends_at_once()
    ensures { MendsAtOnce }
{}

/// A withdrawal of addresses goes on from a core edge in all its pieces by each wire to which split horizon lets it, a mesh wire
/// where it came by a spoke, whose end at the edge advertises and whose session stands, unless the link does not take one and
/// the session ends; and by no other wire (RFC 4762 sections 4.4 and 6.2).
#[tactic(auto, using(crate::proofs::PassedLemmas::withdrawals_go_on))]
pub fn withdrawals_go_on()
    ensures { WithdrawalsGoOn }
{}

/// A restart keeps what was set at an edge: which circuits and wires are on, failure bits and priority numbers; and its ticks, and its
/// labels, as a label space keeps them that restarts (RFC 5036 section 3.5.7). It forgets addresses, connections and ends, chooses no spoke, and
/// numbers messages and pings from 1 again.
#[tactic(auto, using(crate::proofs::RestartedLemmas::restarts_keep_settings))]
pub fn restarts_keep_settings()
    ensures { RestartsKeepSettings }
{}

/// An edge goes over its ends, as it does when it mends, by rising numbers of the wires, and on each wire by rising segments; neighbours
/// have no part in the order.
#[tactic(auto, using(crate::proofs::RisingLemmas::end_places_rise))]
pub fn end_places_rise()
    ensures { EndPlacesRise }
{}
