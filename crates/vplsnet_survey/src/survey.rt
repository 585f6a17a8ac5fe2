//! All that the program does.
ghost use Rattle.std.specs.Prelude.{◌≡◌, ◌≢◌, ◌↔◌, [], true, None, Some, IfSome, map, option_map, string_bytes};
ghost use Rattle.text_lines.specs.Written.{lines_written};
ghost use Rattle.vplsnet.specs.{Around.{around, gained}, Asked.{is_plain_argument}, Reads.{GainsReads, MayRead}};
ghost use Rattle.vplsnet_survey.specs.Answers.{SaysEnding, SurveyCompletes, SurveyFinishes, tables_of};
ghost use Rattle.vplsnet_survey.specs.{Asked.{survey_asked, survey_by}, Ended.{SurveysLeft}};

use crate::base::run_file;
use crate::ending::Ending;
use crate::put::write_network;
use crate::request::{Request, request_of};
use net_base::{Shelf, Sink};
use psn_net::Network;
use std::alloc::Global;
use vplsnet::{Finish, Outcome};

/// Runs the scenario of a file, and surveys the network that it leaves: `FILE`, of cases of one fault, or `FILE 1`, `FILE 2` or `FILE 3`. It
/// is done over a shelf of files and a sink for the text. What is said of files is said of all files with which the answers of the shelf
/// agree. `Usage` comes exactly where the words are none of these.
///
/// Files are read and refused as `vplsnet tables FILE` does it, and a limit of the run stops it alike; nothing is written then. Of more than
/// 100,000,000 cases none is worked out, and nothing is written. Else the text is the survey of the network behind the scenario's events, and
/// for each failure behind them, and all together, in every order, the laws hold of it. It is written as it is worked out: where memory is
/// refused, or the sink fails, a front of it was taken.
#[tactic(auto, using(crate::proofs::AnswerLemmas::word_steps))]
pub fn survey<F: Shelf, K: Sink>(
    alloc: Global,
    words: &[String],
    shelf: &mut F,
    sink: &mut K,
) -> Ending
    // Words that ask for nothing, and nothing else, are a usage.
    ensures usage { (result ≡ Ending.Vplsnet Outcome.Usage) ↔ (survey_asked (map string_bytes words.now) ≡ None) }
    // What each ending says: what was read and what was taken, and the laws that hold of it.
    ensures answers { SurveyFinishes (around F.reads F.faults K.taken K.faults shelf.old sink.old shelf.new sink.new) (survey_asked (map string_bytes words.now)) result }
    // A file with which the answers agree is answered by what it is, unless a fault was counted or memory was refused.
    ensures complete { IfSome (survey_asked (map string_bytes words.now)) (λ asked. SurveyCompletes (around F.reads F.faults K.taken K.faults shelf.old sink.old shelf.new sink.new) asked result) }
    // Only files that come next are read, each for at most one octet more than its limit.
    ensures reads { GainsReads (MayRead (gained (F.reads shelf.old) (F.reads shelf.new)) (option_map tables_of (survey_asked (map string_bytes words.now)))) (F.reads shelf.old) (F.reads shelf.new) }
{
    match request_of(words) {
        Some(request) => survey_file(alloc, request, shelf, sink),
        None => Ending::Vplsnet(Outcome::Usage),
    }
}

// Does it for a request.
fn survey_file<F: Shelf, K: Sink>(
    alloc: Global,
    request: Request<'_>,
    shelf: &mut F,
    sink: &mut K,
) -> Ending
    requires { is_plain_argument request.file.now ≡ true }
    ensures answers { SaysEnding (around F.reads F.faults K.taken K.faults shelf.old sink.old shelf.new sink.new) (survey_by request.entry) result }
    ensures complete { SurveyCompletes (around F.reads F.faults K.taken K.faults shelf.old sink.old shelf.new sink.new) (survey_by request.entry) result }
    ensures reads { GainsReads (MayRead (gained (F.reads shelf.old) (F.reads shelf.new)) (Some (tables_of (survey_by request.entry)))) (F.reads shelf.old) (F.reads shelf.new) }
{
    let finish = run_file(alloc, request.file, shelf);
    survey_left(alloc, finish, request.most, sink)
}

// Surveys the network that a run left, where it was done.
fn survey_left<K: Sink>(alloc: Global, finish: Finish, most: usize, sink: &mut K) -> Ending
    ensures done { finish.outcome ≡ Outcome.Done → SurveysLeft finish.network most (lines_written (K.taken sink.old) (K.faults sink.old) []) (lines_written (K.taken sink.new) (K.faults sink.new) []) result }
    ensures ended { finish.outcome ≢ Outcome.Done → result ≡ Ending.Vplsnet finish.outcome }
    ensures untaken { finish.outcome ≢ Outcome.Done → K.taken sink.new ≡ K.taken sink.old }
{
    match finish.outcome {
        Outcome::Done => survey_network(alloc, finish.network, most, sink),
        outcome => Ending::Vplsnet(outcome),
    }
}

// Surveys the network of a run that was done.
fn survey_network<K: Sink>(
    alloc: Global,
    network: Option<Network>,
    most: usize,
    sink: &mut K,
) -> Ending
    ensures { SurveysLeft network most (lines_written (K.taken sink.old) (K.faults sink.old) []) (lines_written (K.taken sink.new) (K.faults sink.new) []) result }
{
    match network {
        Some(network) => write_network(alloc, &network, most, sink),
        None => Ending::Vplsnet(Outcome::NoMemory),
    }
}
