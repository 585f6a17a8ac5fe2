//! The program: `vplsnet_survey::survey` over the system's files and standard output.
#![tactic(auto)]

use std::io;
use std::process::ExitCode;
use vplsnet::{FileShelf, StdSink, tell, words_of};
use vplsnet_survey::survey::survey;
use vplsnet_survey::{Ending, ending_line};

/// Surveys the network of a scenario. Where it is not done, it tells on standard error how it ended.
fn main(rt: HostRuntime) -> ExitCode {
    let ending = match words_of(&rt) {
        Ok(words) => {
            let mut shelf = FileShelf::new(rt.alloc(), &rt);
            let mut sink = StdSink::new(io::writer(&rt));
            survey(rt.alloc(), words.as_slice(), &mut shelf, &mut sink)
        }
        Err(outcome) => Ending::Vplsnet(outcome),
    };
    if !matches!(ending, Ending::Done) {
        // Where standard error takes nothing, the status still tells.
        let _ = tell(&rt, ending_line(rt.alloc(), &ending));
    }
    ExitCode::from(ending.status())
}
