//! What holds of statuses.
ghost use Rattle.pw_status.specs.Status.{CombinedAgain};

/// A combined status tells a failure exactly where a failure bit was given, stands by exactly where that was given, by the bits or
/// beside them, and has each other bit as it was given.
pub fn combined_again()
    ensures { CombinedAgain }
{}
