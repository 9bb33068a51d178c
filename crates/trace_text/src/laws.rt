//! Laws of the text of a trace. The functions do nothing.

ghost use Rattle.trace_text.specs.Laws.{SaysSound, ReadsTexts, PrintsBack, ReadsSound, FirstBytesCount};
ghost use Rattle.trace_text.specs.Spelling.{SpellingsPlayNoPart};

/// What lines write is sound, and so is what each trace says: names are spelled well and differ, calls name objects,
/// and all limits are kept.
pub fn a_trace_says_a_sound_value()
    ensures { SaysSound }
{}

/// What is read of a text is what its lines write, each ended by a line feed; each text that writes a value, and
/// is not too long, is read as that value; and no text writes two values.
pub fn what_is_read_is_the_grammar()
    ensures { ReadsTexts }
{}

/// The text of a trace is read as that trace, where it is not too long.
pub fn a_printed_trace_reads_as_it_was()
    ensures { PrintsBack }
{}

/// Each sound value is read of its own text, where no line of it is longer than 4,096 bytes and it is not longer than
/// 16,777,216. So the values that lines write are exactly the sound ones without longer lines.
pub fn each_sound_value_is_read_of_its_text()
    ensures { ReadsSound }
{}

/// The first 16,777,217 bytes of a text say what the whole text says: the value, or the first bad line and its cause.
pub fn only_the_first_bytes_count()
    ensures { FirstBytesCount }
{}

/// Lines that differ in the spelling of data words alone, as `1` and `00000001`, write the same value, and the text of
/// the ones is read as that of the others.
#[tactic(auto, using(crate::proofs::Spelling::spellings_play_no_part))]
pub fn spellings_play_no_part()
    ensures { SpellingsPlayNoPart }
{}
