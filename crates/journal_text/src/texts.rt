//! The reader of a text, line by line.

ghost use Rattle.std.specs.Prelude.{◌≡◌};
ghost use Rattle.std.specs.List.{list_all};
ghost use Rattle.trace_words.specs.Lines.{is_plain_byte};
ghost use Rattle.journal_text.specs.Texts.{Answers, Leaves, fault_at, is_plain as is_plain_line, journal_of, reading_of, sized, unless, with_last, with_line};

use crate::fault::{JournalFault, LineFault};
use crate::reading::Reading;
use dx_base::Seq;
use line_forms::Cause;
use std::alloc::Global;
use trace_words::{cut, words_of_line};
use vk_types::{DevicePlan, VkStep};

/// The most bytes of a journal.
pub const JOURNAL_BYTES: usize = 268_435_456;

/// The most bytes of a line, without its line feed.
const JOURNAL_LINE_BYTES: usize = 16_777_216;

/// Each byte may stand in a line.
fn are_plain_bytes(line: &[u8]) -> bool
    ensures { result ≡ list_all is_plain_byte line.now }
{
    line.iter().all(|b| 32 <= *b && *b <= 126)
}

/// The line is not too long, and each byte is one from 32 to 126.
#[tactic(auto, unfolding(crate::specs::Texts::is_plain))]
fn is_plain(line: &[u8]) -> bool
    ensures { result ≡ is_plain_line line.now }
{
    line.len() <= JOURNAL_LINE_BYTES && are_plain_bytes(line)
}

impl Reading {
    /// Takes a line; `words` is a list to use.
    #[tactic(auto, unfolding(crate::specs::Texts::with_line))]
    fn take_line<'a>(
        &mut self,
        alloc: Global,
        words: &mut Vec<&'a [u8]>,
        line: &'a [u8],
    ) -> Result<(), LineFault>
        ensures { Leaves result self.new (with_line self.old line.now) }
    {
        if !is_plain(line) {
            return Err(LineFault::Refused(Cause::Line));
        }
        if self.ended {
            return Err(LineFault::Refused(Cause::After));
        }
        words_of_line(line, words)?;
        self.take_words(alloc, words)
    }

    /// Takes a line that ends behind so many bytes of the text; `words` is a list to use.
    #[tactic(auto, unfolding(crate::specs::Texts::sized))]
    fn take_sized<'a>(
        &mut self,
        alloc: Global,
        words: &mut Vec<&'a [u8]>,
        line: &'a [u8],
        end: usize,
    ) -> Result<(), LineFault>
        ensures { Leaves result self.new (sized end (with_line self.old line.now)) }
    {
        if end > JOURNAL_BYTES {
            return Err(LineFault::Refused(Cause::Size));
        }
        self.take_line(alloc, words, line)
    }

    /// Why what stands behind the last line feed is refused, up to the end of the text behind so many bytes.
    #[tactic(auto, unfolding(crate::specs::Texts::sized, crate::specs::Texts::with_last))]
    fn last_cause(&self, piece: &[u8], end: usize) -> Option<Cause>
        ensures { unless self.now result ≡ sized end (with_last self.now piece.now) }
    {
        if end > JOURNAL_BYTES {
            Some(Cause::Size)
        } else if piece.is_empty() && self.ended {
            None
        } else if is_plain(piece) {
            Some(Cause::Cut)
        } else {
            Some(Cause::Line)
        }
    }
}

/// A fault of a line, with the line's number.
fn at_line(number: u64, fault: LineFault) -> JournalFault
    ensures { result ≡ fault_at number fault }
{
    match fault {
        LineFault::Refused(cause) => JournalFault::Refused(number, cause),
        LineFault::Memory => JournalFault::Memory,
    }
}

/// What is read of a text.
#[tactic(auto, unfolding(crate::specs::Texts::reading_of))]
fn read_text(alloc: Global, text: &[u8]) -> Result<Reading, JournalFault>
    ensures { Answers result (reading_of text.now) }
{
    let mut reading = Reading::new(alloc);
    let mut words = Vec::new(alloc);
    let mut rest = text;
    let mut number: u64 = 1;
    while let Some((line, behind)) = cut(b'\n', rest) {
        let end = text.len() - behind.len();
        match reading.take_sized(alloc, &mut words, line, end) {
            Ok(()) => (),
            Err(fault) => return Err(at_line(number, fault)),
        }
        rest = behind;
        number += 1;
    }
    match reading.last_cause(rest, text.len()) {
        Some(cause) => Err(JournalFault::Refused(number, cause)),
        None => Ok(reading),
    }
}

/// The objects of the device and the steps that the text of a journal writes. Time and memory are linear in the text.
///
/// `Refused`: the first bad line, counted from 1, and the first of its causes, in this order. `Size`: it holds byte number
/// 268,435,457 of the text. `Line`: it is longer than 16,777,216 bytes, or holds another byte than 32 to 126. `Cut`: the end of
/// the text ends it, or the text ends where no `end` came. `After`: it stands behind `end`. `Form`: it is of no form, or may not
/// stand there. `Number`: a number is too large. `Name`: it names an object that is not there. `Memory`: memory was refused.
#[tactic(auto, unfolding(crate::specs::Texts::journal_of))]
pub fn read_steps(alloc: Global, bytes: &[u8]) -> Result<(DevicePlan, Seq<VkStep>), JournalFault>
    ensures { Answers result (journal_of bytes.now) }
{
    match read_text(alloc, bytes) {
        Ok(reading) => Ok((reading.plan, reading.steps)),
        Err(fault) => Err(fault),
    }
}
