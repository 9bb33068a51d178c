//! Laws of the text of a journal. The functions do nothing.

ghost use Rattle.journal_text.specs.Laws.{FirstBytesCount, PrintsBack};

/// What is printed of a journal is read as that journal, where its numbers are ones of their fields, the objects that it names are
/// there, and its text is within the limits.
#[tactic(auto, using(crate::proofs::JournalsBack::prints_back))]
pub fn a_printed_journal_reads_as_it_was()
    ensures { PrintsBack }
{}

/// The first 268,435,457 bytes of a text say what the whole text says: the journal, or the first bad line and its cause.
#[tactic(auto, using(crate::proofs::TakenBytes::first_bytes))]
pub fn only_the_first_bytes_count()
    ensures { FirstBytesCount }
{}
