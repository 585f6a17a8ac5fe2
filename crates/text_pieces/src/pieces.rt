//! Octets, words and numbers.
ghost use Rattle.std.specs.{Prelude.{◌≡◌, ◌<◌, ◌++◌, codes, OnOk}, Fmt.{decimal}};

use itoa::write_digits;
use net_values::NoMemory;

/// Numbers of up to eight digits are below this. All places of a text of less than 95 MiB are.
const SHORT: u64 = 100_000_000;

/// The most digits that such a number has.
const EIGHT: usize = 8;

/// The most digits that any number has.
const MOST: usize = 20;

/// Adds octets.
pub fn put_text(text: &mut Vec<u8>, octets: &[u8]) -> Result<(), NoMemory>
    ensures { OnOk result (text.new.items ≡ text.old.items ++ octets.now) }
{
    text.extend_from_slice(octets)?;
    Ok(())
}

/// Adds a blank and a word.
pub fn put_word(text: &mut Vec<u8>, word: &[u8]) -> Result<(), NoMemory>
    ensures { OnOk result (text.new.items ≡ text.old.items ++ (codes " " ++ word.now)) }
{
    text.push(b' ')?;
    put_text(text, word)
}

/// Adds a number in decimal. Most numbers of a report have one digit.
#[tactic(auto, using(std::proofs::lemmas::Fmt::decimal_digit))]
pub fn put_number(text: &mut Vec<u8>, number: u64) -> Result<(), NoMemory>
    ensures { OnOk result (text.new.items ≡ text.old.items ++ decimal number) }
{
    if number < 10 {
        text.push(b'0' + number as u8)?;
        return Ok(());
    }
    if number < SHORT {
        return put_short(text, number);
    }
    put_long(text, number)
}

// Adds a number of at most eight digits. Eight octets are added at once, the digits in front, and those behind them are cut off again: a
// count of octets that is always the same is copied without a call.
fn put_short(text: &mut Vec<u8>, number: u64) -> Result<(), NoMemory>
    requires { number < 100000000 }
    ensures { OnOk result (text.new.items ≡ text.old.items ++ decimal number) }
{
    let before = text.len();
    let mut room = [0u8; 2 * EIGHT];
    let begin = write_digits(number, &mut room, EIGHT);
    text.extend_from_slice(&room[begin..begin + EIGHT])?;
    text.truncate(before + (EIGHT - begin));
    Ok(())
}

// Adds a number of any length.
#[inline(never)]
fn put_long(text: &mut Vec<u8>, number: u64) -> Result<(), NoMemory>
    ensures { OnOk result (text.new.items ≡ text.old.items ++ decimal number) }
{
    let mut room = [0u8; MOST];
    let begin = write_digits(number, &mut room, MOST);
    put_text(text, &room[begin..])
}

/// Adds a blank and a number in decimal.
pub fn put_number_word(text: &mut Vec<u8>, number: u64) -> Result<(), NoMemory>
    ensures { OnOk result (text.new.items ≡ text.old.items ++ (codes " " ++ decimal number)) }
{
    text.push(b' ')?;
    put_number(text, number)
}
