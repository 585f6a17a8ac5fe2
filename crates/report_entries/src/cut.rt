//! The words of a line.
ghost use Rattle.std.specs.Prelude.{◌≡◌, ◌≤◌, length, map, take};
ghost use Rattle.script_text.specs.Script.{words_of};
ghost use Rattle.report_entries.specs.Reading.{line_words};

use octet_text::cut_at;

// Puts the first words of a line into room, as many as there is room for at most, and tells how many they are.
fn first_words<'a>(line: &'a [u8], room: &mut [&'a [u8]]) -> usize
    ensures size { length room.new ≡ length room.old }
    ensures within { result ≤ length room.new }
    ensures words { map (λ w. w.now) (take result room.new) ≡ take (length room.old) (words_of line.now) }
{
    let most = room.len();
    let mut rest = line;
    let mut count = 0;
    'cutting: while count < most {
        let (word, behind) = cut_at(b' ', rest);
        room[count] = word;
        count += 1;
        match behind {
            Some(behind) => rest = behind,
            None => return count,
        }
    }
    count
}

/// Puts the first ten words of a line, which is cut at each blank, into room, and tells how many they are. It takes no memory.
#[tactic(auto, unfolding(crate::specs::Reading::line_words))]
pub fn words_of<'a>(line: &'a [u8], room: &mut [&'a [u8]; 10]) -> usize
    ensures size { length room.new ≡ 10 }
    ensures within { result ≤ length room.new }
    ensures words { map (λ w. w.now) (take result room.new) ≡ line_words line.now }
{
    first_words(line, room)
}
