//! What an edge makes of the messages about pseudowires (RFC 5036 sections 3.5.7, 3.5.10 and 3.5.11, RFC 8077 sections 6 and
//! 6.3.2), one call a message.
ghost use Rattle.std.specs.Prelude.{◌≡◌, ◌≤◌, ◌<◌, Some, None, List, length, OnOk, option_copied, true, false};
ghost use Rattle.net_base.specs.declared.outside.link_call.LinkCall.{LinkCall};
ghost use Rattle.edge_model.specs.declared.effect.Effect.{Effect};
ghost use Rattle.edge_model.specs.Signal.{end_of_fec, hears_status, hears_withdraw, maps_to, releases_label, with_released};
ghost use Rattle.peer_dialogue.specs.{Heard.{CanBeTold}, Peering.{at_edge}};
ghost use Rattle.provider_edge.specs.{AtWork.{Works, WorksBy}, Lists.{Keeps, seen}};

use crate::Edge;
use ldp_grammar::StatusCode;
use net_base::{EdgeId, Label, Link, NoMemory};
use peer_dialogue::{AtWork, PwMessage};
use pw_ends::EndChange;
use pw_messages::PW_STATUS_CODE;
use pw_signalling::Binding;
use pw_tlvs::{PwFec, PwStatus};

impl Edge {
    // Label Mapping: a known pseudowire is bound; the label of an unknown one is released.
    pub(crate) fn hear_mapping<L: Link>(
        &mut self,
        peer: EdgeId,
        fec: &PwFec,
        binding: &Binding,
        work: &mut AtWork<'_, L>,
    ) -> Result<(), NoMemory>
        requires working { self.old.stopped ≡ true }
        requires kind { fec.now.kind ≤ 0x7FFF }
        requires told { CanBeTold binding.now.told }
        ensures goes { Works L.calls self.old work.old self.new work.new }
        ensures step { OnOk result (WorksBy L.calls self.old work.old self.new work.new (λ told. maps_to self.old.plan told peer fec.now binding.now (end_of_fec self.old.plan (seen self.old) peer fec.now))) }
    {
        let Some(slot) = self.slot_of(peer, fec) else {
            return self.release(peer, fec, Some(binding.label), work);
        };
        if self.takes_content(slot, &binding.told) {
            self.bind(slot, binding);
            return Ok(());
        }
        self.change(slot, &EndChange::Unbound(None));
        self.release(peer, fec, Some(binding.label), work)
    }

    // A release is put, whatever it answers.
    fn release<L: Link>(
        &mut self,
        peer: EdgeId,
        fec: &PwFec,
        label: Option<Label>,
        work: &mut AtWork<'_, L>,
    ) -> Result<(), NoMemory>
        requires working { self.old.stopped ≡ true }
        requires kind { fec.now.kind ≤ 0x7FFF }
        ensures goes { Works L.calls self.old work.old self.new work.new }
        ensures step { OnOk result (WorksBy L.calls self.old work.old self.new work.new (λ told. releases_label told peer fec.now label)) }
    {
        let message = PwMessage::Release { fec: *fec, label };
        self.say(peer, &message, work)?;
        Ok(())
    }

    // Label Withdraw: the binding goes where the label is absent or its own, or each binding of the peer's group; the label is
    // always released.
    pub(crate) fn hear_withdraw<L: Link>(
        &mut self,
        peer: EdgeId,
        fec: &PwFec,
        label: &Option<Label>,
        work: &mut AtWork<'_, L>,
    ) -> Result<(), NoMemory>
        requires working { self.old.stopped ≡ true }
        requires kind { fec.now.kind ≤ 0x7FFF }
        ensures goes { Works L.calls self.old work.old self.new work.new }
        ensures step { OnOk result (WorksBy L.calls self.old work.old self.new work.new (λ told. hears_withdraw self.old.plan told peer fec.now label.now)) }
    {
        self.change_named(
            peer,
            fec,
            &EndChange::Unbound(*label),
            &EndChange::GroupUnbound(fec.group),
        );
        self.release(peer, fec, *label, work)
    }

    // Label Release of the own label, or without a label: an end that has withdrawn it is idle, and one that advertises it is
    // declined, and the label waits for the peer. One of another label, or without a PW ID, changes nothing.
    pub(crate) fn hear_release(&mut self, peer: EdgeId, fec: &PwFec, label: Option<Label>)
        requires working { self.old.stopped ≡ true }
        ensures keeps { Keeps self.old self.new }
        ensures step { seen self.new ≡ with_released label (end_of_fec self.old.plan (seen self.old) peer fec.now) (seen self.old) }
    {
        if let Some(slot) = self.slot_of(peer, fec) {
            self.change(slot, &EndChange::Released(label));
        }
    }

    // A Notification with the status of a pseudowire, or of each one of the peer's group; any other changes nothing.
    pub(crate) fn hear_status(
        &mut self,
        peer: EdgeId,
        code: StatusCode,
        status: Option<PwStatus>,
        fec: Option<&PwFec>,
    )
        requires working { self.old.stopped ≡ true }
        ensures keeps { Keeps self.old self.new }
        ensures step { (calls : List LinkCall) (out : List Effect)
            → at_edge (seen self.new) calls out ≡ hears_status self.old.plan peer code status (option_copied fec.entry) (at_edge (seen self.old) calls out) }
    {
        let Some(status) = status else {
            return;
        };
        let Some(fec) = fec else {
            return;
        };
        if code.code == PW_STATUS_CODE {
            self.change_named(
                peer,
                fec,
                &EndChange::Stated(status),
                &EndChange::GroupStated(fec.group, status),
            );
        }
    }
}
