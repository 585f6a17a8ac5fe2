//! What holds of an end, and of every list of calls.
ghost use Rattle.pw_signalling.specs.Laws.{ForwardsWhereBothAgree, HeedsNoStandby, HoldsTheLastMapping, KeepsItsLabel, KeepsItsMark};

/// Whatever comes, an end holds one binding at most: that of the last Label Mapping since the session stands, but for the
/// status.
pub fn holds_the_last_mapping()
    ensures { HoldsTheLastMapping }
{}

/// A Label Release of another label changes nothing. An end owns its label until it is idle, and gets one by an advertisement
/// alone.
pub fn keeps_its_label()
    ensures { KeepsItsLabel }
{}

/// The mark of a declined end stays until the end is renewed, its session is lost, or it advertises; no end is declined then.
/// It comes only by a Label Release of what the end advertises.
pub fn keeps_its_mark()
    ensures { KeepsItsMark }
{}

/// An end forwards only where it advertises and is bound, both C bits (RFC 8077 section 7) and both PW types (section 6.1) are
/// the same, and the MTUs, where both are told, too (section 6.4).
pub fn forwards_where_both_agree()
    ensures { ForwardsWhereBothAgree }
{}

/// Only the core edge's end of a spoke takes heed of the standby bit that the peer tells (RFC 6870). Why each other end does not
/// forward is the same with the bit as without it.
#[tactic(auto, using(crate::proofs::StandbyLemmas::heeds_no_standby))]
pub fn heeds_no_standby()
    ensures { HeedsNoStandby }
{}
