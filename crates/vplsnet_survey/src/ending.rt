//! How a survey ended.
ghost use Rattle.std.specs.{Fmt.{decimal}, Prelude.{◌≡◌, ◌++◌, codes, IfOk}};
ghost use Rattle.vplsnet_survey.specs.Ended.{ending_status, ending_text};

use net_base::NoMemory;
use std::alloc::Global;
use text_pieces::put_number;
use vplsnet::Outcome;
use vplsnet::finish_line::finish_line;

/// How a call ended.
#[derive(Drop)]
pub enum Ending {
    /// The whole text was taken.
    Done,
    /// As a call of `vplsnet` that ends so, of which the run of the scenario is one. Where the sink failed, or memory was refused on the way
    /// through the cases, a front of the text was taken, and else nothing.
    Vplsnet(Outcome),
    /// There are so many cases, counted up to 2^64 - 1, and these are more than 100,000,000. Nothing was taken.
    TooManyCases(u64),
}

impl Ending {
    /// The status with which the program ends.
    pub fn status(&self) -> u8
        ensures { result ≡ ending_status self.now }
    {
        match self {
            Ending::Done => 0,
            Ending::Vplsnet(outcome) => outcome.status(),
            Ending::TooManyCases(_) => 7,
        }
    }
}

/// The line, without a line feed, that tells on standard error how a call ended that was not done.
pub fn ending_line(alloc: Global, ending: &Ending) -> Result<Vec<u8>, NoMemory>
    ensures { IfOk result (λ line. line.items ≡ ending_text ending.now) }
{
    match ending {
        Ending::Done => Ok(Vec::new(alloc)),
        Ending::Vplsnet(Outcome::Done) => Ok(Vec::new(alloc)),
        Ending::Vplsnet(outcome) => finish_line(alloc, outcome),
        Ending::TooManyCases(count) => too_many_line(alloc, *count),
    }
}

// The line that tells of too many cases.
fn too_many_line(alloc: Global, count: u64) -> Result<Vec<u8>, NoMemory>
    ensures { IfOk result (λ line. line.items ≡ codes "vplsnet: stopped: TooManyCases " ++ decimal count) }
{
    let mut line = Vec::from_slice(alloc, b"vplsnet: stopped: TooManyCases ")?;
    put_number(&mut line, count)?;
    Ok(line)
}
