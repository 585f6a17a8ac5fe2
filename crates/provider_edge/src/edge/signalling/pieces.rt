//! An edge tells a neighbour that addresses are to be forgotten: a MAC withdraw on an end, in pieces (RFC 4762 section 6.2).
ghost use Rattle.std.specs.Prelude.{◌≡◌, ◌<◌, ◌≤◌, ◌*◌, length, take, drop, IfOk, OnOk, true};
ghost use Rattle.mac_withdraw.specs.Pieces.{pieces_of};
ghost use Rattle.pw_ends.specs.Ends.{place_of};
ghost use Rattle.edge_model.specs.Withdraw.{tells_piece, tells_pieces};
ghost use Rattle.provider_edge.specs.AtWork.{SaysBy, Works, WorksBy};

use crate::Edge;
use mac_withdraw::pieces;
use net_base::{Link, Mac, NoMemory};
use peer_dialogue::{AtWork, PwMessage};
use pw_signalling::PwEnd;

// The most addresses of one message.
const MOST_IN_PIECE: usize = 30;

impl Edge {
    // One piece is put by an end that advertises its label; answers whether the link did not take it.
    pub(crate) fn tell_piece<L: Link>(
        &mut self,
        slot: usize,
        addresses: &[Mac],
        work: &mut AtWork<'_, L>,
    ) -> Result<bool, NoMemory>
        requires working { self.old.stopped ≡ true }
        requires slot { slot < length self.old.ends.places }
        requires few { length addresses.now ≤ 30 }
        ensures goes { Works L.calls self.old work.old self.new work.new }
        ensures step { IfOk result (SaysBy L.calls self.old work.old self.new work.new (λ told. tells_piece told (place_of self.old.ends slot) addresses.now)) }
    {
        match self.end_in(slot) {
            PwEnd::Advertised(end) => {
                let content = *end.told();
                let place = self.place_at(slot);
                let message = PwMessage::MacWithdrawal {
                    pw_id: place.pw_id,
                    addresses,
                    told: content,
                };
                self.say(place.peer, &message, work)
            }
            PwEnd::Idle(_) => Ok(false),
            PwEnd::Withdrawing(_) => Ok(false),
        }
    }

    // The addresses are told in pieces, whatever becomes of each.
    pub(crate) fn tell_pieces<L: Link>(
        &mut self,
        slot: usize,
        addresses: &[Mac],
        work: &mut AtWork<'_, L>,
    ) -> Result<(), NoMemory>
        requires working { self.old.stopped ≡ true }
        requires slot { slot < length self.old.ends.places }
        ensures goes { Works L.calls self.old work.old self.new work.new }
        ensures step { OnOk result (WorksBy L.calls self.old work.old self.new work.new (λ told. tells_pieces told (place_of self.old.ends slot) (pieces_of addresses.now))) }
    {
        for index in 0..pieces(addresses.len()) {
            let piece = piece_at(addresses, index);
            self.tell_piece(slot, piece, work)?;
        }
        Ok(())
    }
}

// The piece with a number, counted from 0.
#[tactic(auto, using(crate::proofs::WithdrawLemmas::piece_read, crate::proofs::WithdrawLemmas::piece_few))]
fn piece_at(addresses: &[Mac], index: usize) -> &[Mac]
    requires { 30 * index ≤ length addresses.now }
    ensures piece { result.now ≡ take 30 (drop (30 * index) addresses.now) }
    ensures few { length result.now ≤ 30 }
{
    let (_, rest) = addresses.split_at(MOST_IN_PIECE * index);
    let (piece, _) = rest.split_at(MOST_IN_PIECE.min(rest.len()));
    piece
}
