//! The whole of a program's run: it reads a journal, checks its steps, and writes what they are.

ghost use Rattle.std.specs.Prelude.{◌≡◌, [], map, string_bytes, Some, Err, IfOk, IfSome, OnOk, true, false};
ghost use Rattle.dx_base.specs.Faults.{HasRisen};
ghost use Rattle.journal_text.specs.Texts.{journal_of};
ghost use Rattle.journal_runner.specs.Answers.{check_of, has_number, text_of};
ghost use Rattle.journal_runner.specs.Report.{Checks, IsAnswerTo, IsReport, IsUsage, IsWritten, Says, Writes, are_good};
ghost use Rattle.journal_runner.specs.declared.fault.ToolFault.TheVariants.{Memory as want_of_memory};
ghost use Rattle.line_forms.specs.Lines.{line_text, rest_of_line};

use crate::fault::ToolFault;
use crate::text::{broken_line, impossible_line, refused_line};
use dx_base::Memory;
use journal_text::{JOURNAL_BYTES, read_steps};
use std::alloc::Global;
use text_io::{Sink, Source, read_all, write_all};
use vk_journal_check::{StepCheck, check_steps};

/// Whether the words are ones of the program, which takes none.
fn are_good(words: &[String]) -> bool
    ensures { result ≡ are_good (map string_bytes words.now) }
{
    words.is_empty()
}

/// What the steps of a text's journal are, or why it is not said.
fn check_text(alloc: Global, text: &[u8]) -> Result<StepCheck, ToolFault>
    ensures { Checks result (check_of (journal_of text.now)) }
{
    let (plan, steps) = read_steps(alloc, text)?;
    let check = check_steps(alloc, &plan, steps.as_slice());
    drop(plan);
    drop(steps);
    Ok(check?)
}

/// Reads the words and a journal, and checks its steps.
fn answer_of<S: Source>(
    alloc: Global,
    words: &[String],
    source: &mut S,
) -> Result<StepCheck, ToolFault>
    ensures says { Says (record {
      words = map string_bytes words.now;
      told = S.left source.old;
      source = (S.faults source.old, S.faults source.new);
    }) result }
    ensures unread { are_good (map string_bytes words.now) ≡ false → source.new ≡ source.old }
    ensures ended { OnOk result (IfSome (S.left source.old) (λ all. S.left source.new ≡ Some [])) }
{
    if !are_good(words) {
        return Err(ToolFault::Usage);
    }
    let bytes = read_all(alloc, source, JOURNAL_BYTES + 1)?;
    check_text(alloc, bytes.as_slice())
}

/// Writes a text. The answer that was meant, or `WriteFault` where a write failed.
fn written<K: Sink>(
    sink: &mut K,
    text: &[u8],
    meant: Result<StepCheck, ToolFault>,
) -> Result<StepCheck, ToolFault>
    ensures { Writes (record { before = K.held sink.old; after = K.held sink.new; faults = (K.faults sink.old, K.faults sink.new) }) text.now meant result }
{
    match write_all(sink, text) {
        Ok(()) => meant,
        Err(_) => Err(ToolFault::WriteFault),
    }
}

/// Writes that memory was refused: what a program answers that had none for its words.
#[tactic(auto, unfolding(line_forms::specs::Lines::line_text, line_forms::specs::Lines::rest_of_line))]
pub fn refuse_memory<K: Sink>(sink: &mut K) -> Result<StepCheck, ToolFault>
    ensures { Writes (record { before = K.held sink.old; after = K.held sink.new; faults = (K.faults sink.old, K.faults sink.new) })
        (text_of (Err want_of_memory)) (Err want_of_memory) result }
{
    written(sink, b"out of memory 8007000e\n", Err(ToolFault::Memory))
}

/// Writes the line of an answer, or that memory was refused for it.
fn write_made<K: Sink>(
    sink: &mut K,
    line: Result<Vec<u8>, Memory>,
    meant: Result<StepCheck, ToolFault>,
) -> Result<StepCheck, ToolFault>
    requires line { IfOk line (λ made. made.items ≡ text_of meant) }
    requires number { has_number meant ≡ true }
    ensures { IsWritten (record { before = K.held sink.old; after = K.held sink.new; faults = (K.faults sink.old, K.faults sink.new) }) meant result }
{
    match line {
        Ok(made) => written(sink, made.as_slice(), meant),
        Err(Memory) => refuse_memory(sink),
    }
}

/// Writes the text of an answer.
#[tactic(auto, unfolding(line_forms::specs::Lines::line_text, line_forms::specs::Lines::rest_of_line))]
fn write_answer<K: Sink>(
    alloc: Global,
    sink: &mut K,
    meant: Result<StepCheck, ToolFault>,
) -> Result<StepCheck, ToolFault>
    ensures { IsWritten (record { before = K.held sink.old; after = K.held sink.new; faults = (K.faults sink.old, K.faults sink.new) }) meant result }
{
    match meant {
        Ok(StepCheck::Clean) => written(sink, b"clean\n", meant),
        Ok(StepCheck::Broken(rule, step)) => {
            write_made(sink, broken_line(alloc, rule, step), meant)
        }
        Ok(StepCheck::Impossible(step)) => write_made(sink, impossible_line(alloc, step), meant),
        Err(ToolFault::Usage) => written(sink, b"usage\n", meant),
        Err(ToolFault::Refused(line, cause)) => {
            write_made(sink, refused_line(alloc, line, cause), meant)
        }
        Err(ToolFault::ReadFault) => written(sink, b"read fault\n", meant),
        Err(ToolFault::WriteFault) => written(sink, b"", meant),
        Err(ToolFault::Memory) => refuse_memory(sink),
    }
}

/// Reads a journal from the source, of which the first 268,435,457 bytes decide, checks its steps, and writes to the sink the
/// one line that tells the answer. No words are taken.
///
/// `Usage`: there are words; nothing is read. `Refused`: the text is no journal; the first bad line, counted from 1, and the first
/// of its causes. `ReadFault`: the source failed. `WriteFault`: the sink failed, and has the beginning of the line at most; it takes
/// the place of any other answer. `Memory`: memory was refused.
pub fn journal_main<S: Source, K: Sink>(
    alloc: Global,
    words: &[String],
    source: &mut S,
    sink: &mut K,
) -> Result<StepCheck, ToolFault>
    ensures report { IsReport (record {
      words = map string_bytes words.now;
      told = S.left source.old;
      source = (S.faults source.old, S.faults source.new);
    }) (record { before = K.held sink.old; after = K.held sink.new; faults = (K.faults sink.old, K.faults sink.new) }) result }
    ensures ended { OnOk result (IfSome (S.left source.old) (λ all. S.left source.new ≡ Some [])) }
    ensures unread { are_good (map string_bytes words.now) ≡ false → source.new ≡ source.old }
    ensures usage { are_good (map string_bytes words.now) ≡ false →
        IsUsage (record { before = K.held sink.old; after = K.held sink.new; faults = (K.faults sink.old, K.faults sink.new) }) result }
    ensures complete { are_good (map string_bytes words.now) ≡ true → (HasRisen (S.faults source.old) (S.faults source.new) → ⊥) →
        (HasRisen (K.faults sink.old) (K.faults sink.new) → ⊥) → IfSome (S.left source.old) (λ all. IsAnswerTo all result) }
{
    let answer = answer_of(alloc, words, source);
    write_answer(alloc, sink, answer)
}
