//! What holds of all shapes.
ghost use Rattle.line_shapes.specs.Laws.{ReadWhatIsWritten, WrittenAsRead};

/// The words that are written for the values of a row are read as this row and these values. It holds where the plan's names are names
/// and differ, list by list, the first words of the rows differ, and the values are ones that words of these kinds say.
#[tactic(auto, using(crate::proofs::LawLemmas::reads))]
pub fn read_what_is_written()
    ensures { ReadWhatIsWritten }
{}

/// The words that are read as a row and values are those that are written for them, so that two lines that are read alike are the same.
#[tactic(auto, using(crate::proofs::ReadLemmas::again))]
pub fn written_as_read()
    ensures { WrittenAsRead }
{}
