//! What an end should tell (RFC 8077 sections 6 and 6.3): a terminal end of itself, and a switching point what it has from its
//! other side (RFC 6073 section 7).
ghost use Rattle.std.specs.Prelude.{◌≡◌, ◌<◌, ◌≤◌, length, is_some, Some, true, false, IfSome};
ghost use Rattle.net_base.specs.{plan.Paths.{offer_of}, plan.Places.{wire_row}};
ghost use Rattle.pw_tlvs.specs.Written.{has_vlan};
ghost use Rattle.pw_ends.specs.Ends.{place_of};
ghost use Rattle.edge_model.specs.{Mend.{passed_wish, terminal_wish, wish}, Role.{status_to_tell}};
ghost use Rattle.provider_edge.specs.{Mending.{may_tell_end}, Lists.{seen}};

use crate::Edge;
use edge_model::EndPlace;
use net_base::WirePlan;
use peer_dialogue::terminal_wish;
use pw_signalling::Told;
use pw_stitch::{passed_status, wanted};
use pw_tlvs::{Point, PwStatus};
use spoke_redundancy::status_to_tell;

impl Edge {
    // What an end should tell: nothing unless its wire is on at this edge and the session with its peer is up.
    pub(crate) fn wish(&self, slot: usize) -> Option<Told>
        requires { slot < length self.now.ends.places }
        ensures wish { result ≡ wish self.now.plan (seen self.now) (place_of self.now.ends slot) }
        ensures kind { IfSome result (λ told. told.kind ≤ 0x7FFF) }
        ensures vlan { IfSome result (λ told. has_vlan told.vlan ≡ true) }
    {
        let place = self.place_at(slot);
        let row = self.plan.wires.get(place.wire.0 as usize)?;
        if !self.may_tell(&place) {
            return None;
        }
        if place.terminal {
            self.terminal_wish(slot, row)
        } else {
            self.passed_wish(slot, row)
        }
    }

    // Whether a terminal end at a place should tell anything. One without failure bits tells its offer, where its wire is on and the
    // session with its peer is up.
    pub(crate) fn has_wish(&self, place: &EndPlace, slot: usize) -> bool
        requires slot { slot < length self.now.ends.places }
        requires place { place.now ≡ place_of self.now.ends slot }
        requires within { place.now.wire.0 < length self.now.plan.wires }
        requires terminal { place.now.terminal ≡ true }
        ensures { result ≡ is_some (wish self.now.plan (seen self.now) place.now) }
    {
        match self.plan.wires.get(place.wire.0 as usize) {
            Some(row) => {
                self.may_tell(place)
                    && (self.bits_of(place.wire) == 0 || self.terminal_wish(slot, row).is_some())
            }
            None => false,
        }
    }

    // The wire of an end is on, and the session with its peer is up.
    #[tactic(auto, unfolding(crate::specs::Lists::seen))]
    pub(crate) fn may_tell(&self, place: &EndPlace) -> bool
        requires { place.now.wire.0 < length self.now.plan.wires }
        ensures { result ≡ may_tell_end (seen self.now) place.now }
    {
        self.wires_on[place.wire.0 as usize] && self.is_up(place.peer)
    }

    // What a terminal end tells of itself.
    fn terminal_wish(&self, slot: usize, row: &WirePlan) -> Option<Told>
        requires slot { slot < length self.now.ends.places }
        requires row { wire_row self.now.plan (place_of self.now.ends slot).wire ≡ Some row.now }
        ensures wish { result ≡ terminal_wish self.now.plan (seen self.now) (place_of self.now.ends slot) (offer_of row.now (seen self.now).me.0) }
        ensures kind { IfSome result (λ told. told.kind ≤ 0x7FFF) }
        ensures vlan { IfSome result (λ told. has_vlan told.vlan ≡ true) }
    {
        let place = self.place_at(slot);
        let offer = row.offer_of(self.me);
        let remote = self.end_in(slot).remote();
        terminal_wish(
            &offer,
            remote,
            self.bits_of(place.wire),
            self.status_to_tell(slot),
        )
    }

    // What a switching point has of the neighbour on the other side of an end, behind its own point (RFC 6073 section 7.4).
    fn passed_wish(&self, slot: usize, row: &WirePlan) -> Option<Told>
        requires slot { slot < length self.now.ends.places }
        requires switching { (place_of self.now.ends slot).terminal ≡ false }
        ensures wish { result ≡ passed_wish self.now.plan (seen self.now) (place_of self.now.ends slot) row.now }
        ensures kind { IfSome result (λ told. told.kind ≤ 0x7FFF) }
        ensures vlan { IfSome result (λ told. has_vlan told.vlan ≡ true) }
    {
        let place = self.place_at(slot);
        let from = row.mate(self.me, place.peer)?;
        let point = Point {
            pw_id: Some(row.pw_id),
            local: self.address_of(self.me),
            remote: self.address_of(from),
        };
        wanted(self.held_beside(slot, from), point)
    }

    // The status that an end tells: a terminal end its own failure bits, and that it stands by where it was not chosen, and a switching
    // point what its other side tells (RFC 6073 section 10).
    pub(crate) fn status_to_tell(&self, slot: usize) -> PwStatus
        requires { slot < length self.now.ends.places }
        ensures { result ≡ status_to_tell self.now.plan (seen self.now) (place_of self.now.ends slot) }
    {
        let place = self.place_at(slot);
        if place.terminal {
            status_to_tell(self.role_of(place.wire), self.bits_of(place.wire))
        } else {
            passed_status(self.held_beyond(slot))
        }
    }
}
