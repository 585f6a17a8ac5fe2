//! A command that runs a scenario.

/// A command that runs a scenario, with what its words name.
#[derive(Clone, Copy)]
pub enum RunRequest<'a> {
    /// `replay FILE`: the report of the run of the scenario in FILE.
    Replay { file: &'a str },
    /// `tables FILE`: the tables of the network after this run.
    Tables { file: &'a str },
    /// `capture FILE CIRCUIT`: a capture of the frames that left the circuit in this run.
    Capture { file: &'a str, circuit: &'a str },
    /// `rehearse SEED`: two lines on the run of the scenario that the seed makes.
    Rehearse { seed: u64 },
}
