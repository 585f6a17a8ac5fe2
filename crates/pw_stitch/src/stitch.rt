//! A switching point of one pseudowire.
ghost use Rattle.std.specs.Prelude.{◌≡◌, ◌≤◌, ◌<◌, ◌+◌, ◌↔◌, true, length, None, Some, Err, IfOk, IfSome, IsSome, option_copied};
ghost use Rattle.pw_signalling.specs.AnyEnd.{end_of};
ghost use Rattle.pw_stitch.specs.{declared.swap_drop.SwapDrop.TheVariants.{NoBinding, Expired}, Passing.{own_point, passed_status, wanted}};
ghost use Rattle.pw_stitch.specs.{Side.{opposite}, Stitch.{end_on, held_across, unstitched, with_end_on}};
ghost use Rattle.pw_stitch.specs.Swap.{IsOfOneSide, label_onward, side_taking, swapped, takes_label};

use crate::passing::{passed_status, wanted};
use crate::{Side, SwapDrop, Swapped};
use net_base::{Addr, Label};
use pw_signalling::{Binding, PwEnd, PwIdle, Told};
use pw_tlvs::{Point, PwStatus};
use std::marker::Model;
use std::mem;

/// A switching point of one pseudowire (RFC 6073 section 4): an end of each of the two segments that meet there. It is for callers
/// outside alone, with `Side` and `Swapped`: the program keeps its ends one by one. Contracts see the two ends.
#[derive(Debug, Drop)]
pub struct Stitch {
    before: PwEnd,
    after: PwEnd,
}

impl Model for Stitch {
    ghost use Rattle.pw_signalling.specs.AnyEnd.{end_of};
    ghost use Rattle.pw_stitch.specs.Stitch.{StitchState};

    ghost Value = { StitchState };

    ghost view = { λ s. record { before = end_of s.before; after = end_of s.after } };
}

impl Stitch {
    /// A switching point of which nothing was told on either side.
    pub fn new() -> Stitch
        ensures state { result ≡ unstitched }
    {
        Stitch {
            before: PwEnd::Idle(PwIdle::new()),
            after: PwEnd::Idle(PwIdle::new()),
        }
    }

    /// The end of a side.
    pub fn end(&self, side: Side) -> &PwEnd
        ensures state { end_of result.now ≡ end_on side self.now }
    {
        match side {
            Side::Before => &self.before,
            Side::After => &self.after,
        }
    }

    /// Puts another end in the place of a side's, and answers the one that was there.
    pub fn replace(&mut self, side: Side, end: PwEnd) -> PwEnd
        ensures state { self.new ≡ with_end_on side (end_of end) self.old }
        ensures replaced { end_of result ≡ end_on side self.old }
    {
        match side {
            Side::Before => mem::replace(&mut self.before, end),
            Side::After => mem::replace(&mut self.after, end),
        }
    }

    /// What the end of a side should tell its peer (RFC 6073 section 7): all that is held of the peer on the other side, with the own
    /// point behind the points that are there: this PW ID, the own address, and the address `far` of that peer. `None` exactly
    /// where no binding is held on the other side, so nothing is told on a side before the other one is bound. What is held there
    /// has passed fewer than three switching points.
    pub fn wanted(&self, side: Side, own: Addr, far: Addr, pw_id: u32) -> Option<Told>
        requires room { IfSome (held_across side self.now) (λ binding. length binding.told.points < 3) }
        ensures told { result ≡ wanted (own_point pw_id (Some own) (Some far)) (held_across side self.now) }
        ensures none { result ≡ None ↔ held_across side self.now ≡ None }
    {
        let point = Point {
            pw_id: Some(pw_id),
            local: Some(own),
            remote: Some(far),
        };
        wanted(self.held_across(side), point)
    }

    /// The status that the end of a side tells its peer, where its mapping has one (RFC 6073 section 10): that of what is held
    /// on the other side, and 0 where no binding is held there, or one without a status.
    pub fn status_to_pass(&self, side: Side) -> PwStatus
        ensures status { result ≡ passed_status (held_across side self.now) }
    {
        passed_status(self.held_across(side))
    }

    /// Whether exactly one side advertises the label, as `swap` asks for.
    pub fn takes(&self, label: Label) -> bool
        ensures one { result ≡ true ↔ IsOfOneSide label self.now }
    {
        takes_label(label, &self.before) != takes_label(label, &self.after)
    }

    /// How a packet goes on that comes with this label and TTL: by the other side, under the label that is bound there, and with
    /// a TTL that is one less (RFC 6073 section 4, RFC 3032 section 2.4.2). `NoBinding` comes exactly where none is bound there,
    /// and `Expired` exactly where one is and the TTL is 1. Exactly one side advertises the label (`takes`), and the TTL is not 0.
    pub fn swap(&self, label: Label, ttl: u8) -> Result<Swapped, SwapDrop>
        requires one { IsOfOneSide label self.now }
        requires living { 1 ≤ ttl }
        ensures next { result ≡ swapped label ttl self.now }
        ensures no_binding { result ≡ Err NoBinding ↔ held_across (side_taking label self.now) self.now ≡ None }
        ensures expired { result ≡ Err Expired ↔ (IsSome (held_across (side_taking label self.now) self.now) × (ttl ≡ 1)) }
        ensures onward { IfOk result (λ next. next.side ≡ opposite (side_taking label self.now)) }
        ensures falls { IfOk result (λ next. next.ttl + 1 ≡ ttl) }
        ensures lives { IfOk result (λ next. 1 ≤ next.ttl) }
    {
        let side = self.side_taking(label);
        let label = label_onward(self.held_across(side), ttl)?;
        Ok(Swapped {
            side: side.opposite(),
            label,
            ttl: ttl - 1,
        })
    }

    // The side that advertises the label, where one does.
    fn side_taking(&self, label: Label) -> Side
        ensures { result ≡ side_taking label self.now }
    {
        if takes_label(label, &self.before) {
            Side::Before
        } else {
            Side::After
        }
    }

    // What is held of the peer on the other side.
    fn held_across(&self, side: Side) -> Option<&Binding>
        ensures { option_copied result ≡ held_across side self.now }
    {
        self.end(side.opposite()).remote()
    }
}

// Whether packets with this label come to the end, since it advertises the label.
fn takes_label(label: Label, end: &PwEnd) -> bool
    ensures { result ≡ takes_label label (end_of end.now).local }
{
    match end {
        PwEnd::Advertised(end) => end.label() == label,
        PwEnd::Idle(_) | PwEnd::Withdrawing(_) => false,
    }
}

/// The label under which a packet goes on, by what is held of the peer to which it goes, where that is bound and the TTL with which
/// the packet came is not 1 (RFC 6073 section 4, RFC 3032 section 2.4.2).
pub fn label_onward(binding: Option<&Binding>, ttl: u8) -> Result<Label, SwapDrop>
    ensures label { result ≡ label_onward (option_copied binding.entry) ttl }
{
    match binding {
        None => Err(SwapDrop::NoBinding),
        Some(_) if ttl == 1 => Err(SwapDrop::Expired),
        Some(binding) => Ok(binding.label),
    }
}
