//! Names that are numbered.
ghost use Rattle.std.specs.{Prelude.{◌≡◌, ◌++◌, length, IfOk}, Fmt.{decimal}};
ghost use Rattle.net_values.specs.Name.{IsName};

use itoa::Buffer;
use net_base::{Name, NoMemory};
use std::alloc::Global;

/// The name of one letter and a number.
#[tactic(auto, using(crate::proofs::NameLemmas::numbered_name))]
pub fn numbered(alloc: Global, letter: &str, number: u16) -> Result<Name, NoMemory>
    requires name { IsName letter.now }
    requires one { length letter.now ≡ 1 }
    ensures { IfOk result (λ name. name ≡ letter.now ++ decimal number) }
{
    let mut buffer = Buffer::new();
    let mut text = String::from_str(alloc, letter)?;
    text.push_str(buffer.format(number))?;
    Ok(Name::read(text.as_str()).unwrap())
}
