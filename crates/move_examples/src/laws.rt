//! A plan with a switching point, and a move there.
ghost use Rattle.move_examples.specs.Healed.{HealedOverSwitchingPoint};

/// Of a plan with a switching point there is a run in which all that the law of moves asks is so: a calm state in which each learned
/// address points to its site, one setting by which a spoke edge moves to its spoke over the switching point, deliveries, and a calm state.
/// There they point to the sites again, and one that was known is forgotten (RFC 4762 section 6.2, RFC 6073 section 7).
pub fn moves_heal_over_a_switching_point()
    ensures { HealedOverSwitchingPoint }
{}
