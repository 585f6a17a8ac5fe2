//! What the words of the command line ask for. They are read by hand: the rows are few and fixed.
ghost use Rattle.std.specs.Prelude.{◌≡◌, map, option_map, string_bytes};
ghost use Rattle.vplsnet.specs.Asked.{asked, asked_by, is_plain_argument, one_word_command, two_word_command};

use crate::run_request::RunRequest;
use command_text::is_same;
use plan_names::decimal;

/// A command with what its words name.
#[derive(Clone, Copy)]
pub enum Request<'a> {
    /// A command that runs a scenario.
    Run(RunRequest<'a>),
    /// `decode FILE`: a line for each LDP message of the stream in FILE.
    Decode { file: &'a str },
    /// `migrate FILE`: the scenario in FILE as a text of version 2.
    Migrate { file: &'a str },
    /// `discover FILE SCRIPT`: the report of the script in SCRIPT over the network of the scenario in FILE.
    Discover { file: &'a str, script: &'a str },
    /// `switchover FILE SCRIPT`: what the script in SCRIPT makes of the edges of FILE's scenario in independent mode.
    Switchover { file: &'a str, script: &'a str },
    /// `audit FILE REPORT`: whether the report in REPORT meets the rules for the plan of FILE's scenario.
    Audit { file: &'a str, report: &'a str },
}

/// What the words ask for; `None` exactly where they are no row of the table of commands. The words are those behind the
/// program's name. None of them is empty or begins with `-`. A SEED is a decimal number below 2^64 without leading zeros.
pub fn request_of<'a>(words: &'a [String]) -> Option<Request<'a>>
    ensures { option_map asked_by result ≡ asked (map string_bytes words.now) }
{
    match words {
        [command, word] if is_plain_word(word.as_str()) => one_word_request(
            command.as_str(),
            word.as_str(),
        ),
        [command, file, word] if is_plain_word(file.as_str()) && is_plain_word(word.as_str()) => {
            two_word_request(command.as_str(), file.as_str(), word.as_str())
        }
        _ => None,
    }
}

// A command of one more word, by its name.
fn one_word_request<'a>(command: &str, word: &'a str) -> Option<Request<'a>>
    ensures { option_map asked_by result ≡ one_word_command command.now word.now }
{
    if is_same(command, "replay") {
        Some(Request::Run(RunRequest::Replay { file: word }))
    } else if is_same(command, "tables") {
        Some(Request::Run(RunRequest::Tables { file: word }))
    } else if is_same(command, "decode") {
        Some(Request::Decode { file: word })
    } else if is_same(command, "rehearse") {
        match decimal(0, u64::MAX, word.as_bytes()) {
            Some(seed) => Some(Request::Run(RunRequest::Rehearse { seed })),
            None => None,
        }
    } else if is_same(command, "migrate") {
        Some(Request::Migrate { file: word })
    } else {
        None
    }
}

// A command of two more words, by its name.
fn two_word_request<'a>(command: &str, file: &'a str, word: &'a str) -> Option<Request<'a>>
    ensures { option_map asked_by result ≡ two_word_command command.now file.now word.now }
{
    if is_same(command, "capture") {
        Some(Request::Run(RunRequest::Capture {
            file,
            circuit: word,
        }))
    } else if is_same(command, "discover") {
        Some(Request::Discover { file, script: word })
    } else if is_same(command, "switchover") {
        Some(Request::Switchover { file, script: word })
    } else if is_same(command, "audit") {
        Some(Request::Audit { file, report: word })
    } else {
        None
    }
}

/// Whether a word is neither empty nor an option.
pub fn is_plain_word(word: &str) -> bool
    ensures { result ≡ is_plain_argument word.now }
{
    let octets = word.as_bytes();
    !octets.is_empty() && octets[0] != b'-'
}
