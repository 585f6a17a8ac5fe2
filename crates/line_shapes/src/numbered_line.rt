//! Lines of a script by their words.
ghost use Rattle.std.specs.Prelude.{◌≡◌, ◌<◌, ◌+◌, ◌-◌, ◌^◌};
ghost use Rattle.line_shapes.specs.Shapes.{first_said};

use plan_names::PlanNames;
use script_text::{Line, ScriptFault};

/// A line of a script with its number, and the names of which its words may speak. Words are counted from 1.
#[derive(Clone, Copy)]
pub struct NumberedLine<'a, 'n> {
    pub names: &'a PlanNames<'n>,
    /// The number of the line, from 1.
    pub number: u32,
    pub line: &'a Line,
}

impl<'a, 'n> NumberedLine<'a, 'n> {
    /// The line at this place of a script, where places count from 0.
    pub fn at(names: &'a PlanNames<'n>, place: usize, line: &'a Line) -> NumberedLine<'a, 'n>
        requires { place < 2 ^ 32 - 1 }
        ensures names { result.names.now ≡ names.now }
        ensures number { result.number ≡ place + 1 }
        ensures line { result.line.now ≡ line.now }
    {
        NumberedLine {
            names,
            number: place as u32 + 1,
            line,
        }
    }

    /// The fault that the word of this number is missing, one too many, or not what has to stand there.
    pub fn bad(self, word: u32) -> ScriptFault
        ensures { result ≡ ScriptFault.Bad self.entry.number word }
    {
        ScriptFault::Bad {
            line: self.number,
            word,
        }
    }

    /// The first word.
    pub fn first(self) -> &'a str
        ensures { result.now ≡ first_said self.entry.line.now }
    {
        match self.line.word(0) {
            Some(word) => word,
            None => "",
        }
    }
}
