//! A place of a script in words.
ghost use Rattle.std.specs.{Prelude.{◌≡◌, ◌++◌, ◌∷◌, [], OnOk}, Fmt.{decimal}};
ghost use Rattle.text_pieces.specs.Pieces.{spaced};

use net_base::NoMemory;
use text_pieces::put_number_word;

/// Adds the number of a line and that of a word in it, with a blank before each.
pub fn put_script_place(text: &mut Vec<u8>, line: u32, word: u32) -> Result<(), NoMemory>
    ensures { OnOk result (text.new.items ≡ text.old.items ++ spaced (decimal line ∷ decimal word ∷ [])) }
{
    put_number_word(text, u64::from(line))?;
    put_number_word(text, u64::from(word))
}
