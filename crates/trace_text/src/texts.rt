//! The reader of a text, line by line.

ghost use Rattle.std.specs.Prelude.{◌≡◌, ◌+◌, ◌-◌, length};
ghost use Rattle.trace_text.specs.Gives.{Leaves, Answers, fault_at};
ghost use Rattle.trace_text.specs.Texts.{is_skipped, with_line, with_last, sized, unless, reading_of};

use crate::line_fault::LineFault;
use crate::reading::Reading;
use crate::trace_fault::TraceFault;
use dx_base::TRACE_BYTES;
use line_forms::Cause;
use std::alloc::Global;
use trace_words::{cut, is_plain, words_of_line};

/// The line is empty or a comment.
fn is_skipped(line: &[u8]) -> bool
    ensures { result ≡ is_skipped line.now }
{
    match line {
        [] => true,
        [first, ..] => *first == b'#',
    }
}

impl Reading {
    /// Takes a line; `words` is a list to use.
    #[tactic(auto, unfolding(crate::specs::Texts::with_line))]
    fn take_line<'a>(
        &mut self,
        alloc: Global,
        words: &mut Vec<&'a [u8]>,
        line: &'a [u8],
    ) -> Result<(), LineFault>
        ensures { Leaves result self.new (with_line self.old line.now) }
    {
        if !is_plain(line) {
            return Err(LineFault::Refused(Cause::Line));
        }
        if self.ended {
            return Err(LineFault::Refused(Cause::After));
        }
        if is_skipped(line) {
            return Ok(());
        }
        words_of_line(line, words)?;
        self.take_words(alloc, words)
    }

    /// Takes a line that ends behind so many bytes of the text; `words` is a list to use.
    #[tactic(auto, unfolding(crate::specs::Texts::sized))]
    fn take_sized<'a>(
        &mut self,
        alloc: Global,
        words: &mut Vec<&'a [u8]>,
        line: &'a [u8],
        end: usize,
    ) -> Result<(), LineFault>
        ensures { Leaves result self.new (sized end (with_line self.old line.now)) }
    {
        if end > TRACE_BYTES {
            return Err(LineFault::Refused(Cause::Size));
        }
        self.take_line(alloc, words, line)
    }

    /// Takes what stands behind the last line feed, up to the end of the text behind so many bytes.
    #[tactic(auto, unfolding(crate::specs::Texts::sized, crate::specs::Texts::with_last))]
    fn last_cause(&self, piece: &[u8], end: usize) -> Option<Cause>
        ensures { unless self.now result ≡ sized end (with_last self.now piece.now) }
    {
        if end > TRACE_BYTES {
            Some(Cause::Size)
        } else if piece.is_empty() && self.ended {
            None
        } else if is_plain(piece) {
            Some(Cause::Cut)
        } else {
            Some(Cause::Line)
        }
    }
}

/// A fault of a line, with the line's number.
fn at_line(number: u64, fault: LineFault) -> TraceFault
    ensures { result ≡ fault_at number fault }
{
    match fault {
        LineFault::Refused(cause) => TraceFault::Refused(number, cause),
        LineFault::Memory => TraceFault::Memory,
    }
}

/// What is read of a text. `Refused`: the first bad line, counted from 1, and the first of its causes.
#[tactic(auto, unfolding(crate::specs::Texts::reading_of))]
pub fn read_text(alloc: Global, text: &[u8]) -> Result<Reading, TraceFault>
    ensures { Answers result (reading_of text.now) }
{
    let mut reading = Reading::new(alloc);
    let mut words = Vec::new(alloc);
    let mut rest = text;
    let mut number: u64 = 1;
    while let Some((line, behind)) = cut(b'\n', rest) {
        let end = text.len() - behind.len();
        match reading.take_sized(alloc, &mut words, line, end) {
            Ok(()) => (),
            Err(fault) => return Err(at_line(number, fault)),
        }
        rest = behind;
        number += 1;
    }
    match reading.last_cause(rest, text.len()) {
        Some(cause) => Err(TraceFault::Refused(number, cause)),
        None => Ok(reading),
    }
}
