//! What the benches ask of an edge. Words follow the program's name, and each three of them are done in turn. It ends with 1 where one of
//! them is not done.
//!
//! - `cases SCENARIO INPUTS`, for `bench/soak`: one edge over a link in memory takes the inputs of a file, and each is printed with what the
//!   edge gives out.
//! - `hear COUNT PIECES`, for `bench/hear`: an edge hears pieces of its neighbour of so many KeepAlives each; how many it heard.
#![tactic(auto)]

mod case;
mod cases;
mod effect;
mod hearing;
mod input;
mod names;

use cases::print_cases;
use command_text::is_same;
use hearing::heard_in_pair;
use std::env;
use std::env::Args;
use std::process::ExitCode;

fn main(rt: HostRuntime) -> ExitCode {
    let mut words = Vec::new(rt.alloc());
    if takes_words(&rt, &mut words) && all_done(&rt, words.as_slice()) {
        ExitCode::from(0)
    } else {
        ExitCode::from(1)
    }
}

// Takes the words of the command line, without the program's own name.
fn takes_words(rt: &HostRuntime, words: &mut Vec<String>) -> bool {
    match env::args(rt) {
        Ok(args) => takes_each(args, words),
        Err(_) => false,
    }
}

// Takes each word behind the first one; false where memory was refused.
fn takes_each(args: Args, words: &mut Vec<String>) -> bool {
    for word in args.skip(1) {
        if words.push(word).is_err() {
            return false;
        }
    }
    true
}

// Does what the words ask, three by three.
fn all_done(rt: &HostRuntime, words: &[String]) -> bool {
    for asked in words.chunks(3) {
        if is_done(rt, asked).is_none() {
            return false;
        }
    }
    true
}

// Does what three words ask.
fn is_done(rt: &HostRuntime, asked: &[String]) -> Option<()> {
    match asked {
        [what, one, two] if is_same(what.as_str(), "cases") => {
            print_cases(rt, one.as_str(), two.as_str())
        }
        [what, one, two] if is_same(what.as_str(), "hear") => {
            let (count, pieces) = (number_of(one.as_str())?, number_of(two.as_str())?);
            let heard = heard_in_pair(rt.alloc(), count, pieces)?;
            println!(rt; "{heard}").ok()
        }
        _ => None,
    }
}

// The number of a word.
fn number_of(word: &str) -> Option<u32> {
    word.parse::<u32>().ok()
}
