//! The program: `vplsnet::run` over the system's files and standard output.
#![tactic(auto)]

use std::process::ExitCode;
use std::{io, mem};
use vplsnet::finish_line::finish_line;
use vplsnet::run::run;
use vplsnet::{FileShelf, Finish, Outcome, StdSink, tell, words_of};

/// Runs the program over the system's files and standard output. Where it is not done, it tells on standard error
/// how it ended. Its status is that of the outcome.
fn main(rt: HostRuntime) -> ExitCode {
    let finish = match words_of(&rt) {
        Ok(words) => {
            let mut shelf = FileShelf::new(rt.alloc(), &rt);
            let mut sink = StdSink::new(io::writer(&rt));
            run(rt.alloc(), words.as_slice(), &mut shelf, &mut sink)
        }
        Err(outcome) => Finish::without_run(outcome),
    };
    if !matches!(finish.outcome, Outcome::Done) {
        // Where standard error takes nothing, the status still tells.
        let _ = tell(&rt, finish_line(rt.alloc(), &finish.outcome));
    }
    let status = ExitCode::from(finish.status);
    // The system takes all memory back at once, which is quicker than to free a run piece by piece.
    mem::forget(finish);
    status
}
