//! A fault's name with its place in words.
ghost use Rattle.std.specs.{Prelude.{◌≡◌, ◌++◌, ◌∷◌, [], OnOk}, Fmt.{decimal}};
ghost use Rattle.text_pieces.specs.Pieces.{spaced};

use net_base::NoMemory;
use text_pieces::{put_number_word, put_word};

/// Adds a fault's name and its place, in octets, with a blank before each.
pub fn put_placed(text: &mut Vec<u8>, name: &[u8], at: u64) -> Result<(), NoMemory>
    ensures { OnOk result (text.new.items ≡ text.old.items ++ spaced (name.now ∷ decimal at ∷ [])) }
{
    put_word(text, name)?;
    put_number_word(text, at)
}
