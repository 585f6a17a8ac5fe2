//! What the words of the command line ask for.
ghost use Rattle.std.specs.Prelude.{◌≡◌, true, map, option_map, string_bytes, IfSome};
ghost use Rattle.vplsnet.specs.Asked.{is_plain_argument};
ghost use Rattle.vplsnet_survey.specs.Asked.{most_in, of_file, survey_asked, survey_by};

use command_text::is_same;
use vplsnet::is_plain_word;

/// A scenario's file, and of how many faults a case has at most.
#[derive(Clone, Copy)]
pub struct Request<'a> {
    pub file: &'a str,
    pub most: usize,
}

// Of how many faults a word says that a case has at most.
fn most_in(word: &str) -> Option<usize>
    ensures { result ≡ most_in word.now }
{
    if is_same(word, "1") {
        Some(1)
    } else if is_same(word, "2") {
        Some(2)
    } else if is_same(word, "3") {
        Some(3)
    } else {
        None
    }
}

// A file and how many, where that is told.
fn of_file<'a>(file: &'a str, most: Option<usize>) -> Option<Request<'a>>
    ensures asked { option_map survey_by result ≡ of_file file.now most }
    ensures file { IfSome result (λ request. request.file.now ≡ file.now) }
{
    match most {
        Some(most) => Some(Request { file, most }),
        None => None,
    }
}

/// What the words ask for: `FILE`, of one fault, or `FILE 1`, `FILE 2` or `FILE 3`; `None` exactly where they are none of these. The words
/// are those behind the program's name. The file is neither empty nor begins with `-`.
pub fn request_of<'a>(words: &'a [String]) -> Option<Request<'a>>
    ensures asked { option_map survey_by result ≡ survey_asked (map string_bytes words.now) }
    ensures plain { IfSome result (λ request. is_plain_argument request.file.now ≡ true) }
{
    match words {
        [file] if is_plain_word(file.as_str()) => of_file(file.as_str(), Some(1)),
        [file, count] if is_plain_word(file.as_str()) => {
            of_file(file.as_str(), most_in(count.as_str()))
        }
        _ => None,
    }
}
