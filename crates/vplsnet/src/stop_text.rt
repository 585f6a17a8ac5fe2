//! The limit that stopped a run, in words.
ghost use Rattle.std.specs.{Prelude.{◌≡◌, ◌++◌, ◌∷◌, [], OnOk}, Fmt.{decimal}};
ghost use Rattle.text_pieces.specs.Pieces.{spaced};
ghost use Rattle.vplsnet.specs.StopText.{stop_words};

use net_base::NoMemory;
use psn_net::NetStop;
use text_pieces::{put_number_word, put_word};

/// Adds the limit's name, what was counted and the number of the event that was not done, with a blank before each.
pub fn put_stop(text: &mut Vec<u8>, stop: NetStop) -> Result<(), NoMemory>
    ensures { OnOk result (text.new.items ≡ text.old.items ++ spaced (stop_words stop)) }
{
    match stop {
        NetStop::Crowded { count, event } => {
            put_counted(text, b"Crowded", u64::from(count), event)
        }
        NetStop::TooMuch { weight, event } => put_counted(text, b"TooMuch", weight, event),
        NetStop::NoMemory => put_word(text, b"out of memory"),
    }
}

// Adds a limit's name and two numbers.
fn put_counted(text: &mut Vec<u8>, name: &[u8], count: u64, event: u64) -> Result<(), NoMemory>
    ensures { OnOk result (text.new.items ≡ text.old.items ++ spaced (name.now ∷ decimal count ∷ decimal event ∷ [])) }
{
    put_word(text, name)?;
    put_number_word(text, count)?;
    put_number_word(text, event)
}
