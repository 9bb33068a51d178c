//! The numbers that commands leave.

use crate::parts::{Part, stage_of};
use crate::registers::Answer;
use crate::slow_machine::SlowMachine;
use crate::word_accesses::At;
use dx_base::{Memory, Seq};
use vk_types::{Stage, VkCommand};

/// Whether some number is not known.
fn some_open(numbers: &[Option<u32>]) -> bool {
    for number in numbers {
        if number.is_none() {
            return true;
        }
    }
    false
}

impl SlowMachine {
    /// Appends the numbers that a part reads: those of the last writes, where it sees them.
    fn push_read(
        &self,
        numbers: &mut Seq<Option<u32>>,
        at: At,
        stage: Stage,
        part: &Part,
    ) -> Result<(), Memory> {
        for place in 0..part.columns.count {
            let word = part.word(place);
            numbers.push(if self.is_seen(at, stage, part.access, word) {
                self.number_of(word)
            } else {
                None
            })?;
        }
        Ok(())
    }

    /// The numbers that the parts of a command read, in order.
    fn numbers_read(
        &self,
        at: At,
        stage: Stage,
        parts: &[Part],
    ) -> Result<Seq<Option<u32>>, Memory> {
        let mut numbers = Seq::new(self.alloc);
        for part in parts {
            if !part.writes {
                self.push_read(&mut numbers, at, stage, part)?;
            }
        }
        Ok(numbers)
    }

    /// Stores numbers into the words of a part, in order, and any number where there are no more; the numbers that are left.
    fn store_part<'a>(&mut self, numbers: &'a [Option<u32>], part: &Part) -> &'a [Option<u32>] {
        let mut rest = numbers;
        for place in 0..part.columns.count {
            let mut number = None;
            if let Some((first, behind)) = rest.split_first() {
                number = *first;
                rest = behind;
            }
            self.set_number(part.word(place), number);
        }
        rest
    }

    /// Stores numbers into the words that parts write, in order.
    fn store_all(&mut self, numbers: &[Option<u32>], parts: &[Part]) {
        let mut rest = numbers;
        for part in parts {
            if part.writes {
                rest = self.store_part(rest, part);
            }
        }
    }

    /// Leaves any number in the words that parts write.
    pub(crate) fn open_all(&mut self, parts: &[Part]) {
        self.store_all(&[], parts);
    }

    /// Clears the words that parts write.
    fn clear_all(&mut self, parts: &[Part], word: u32) {
        for part in parts {
            for place in 0..part.columns.count {
                self.set_number(part.word(place), Some(word));
            }
        }
    }

    /// The numbers behind a command that reads these and passes no end.
    fn store_effect(
        &mut self,
        numbers: &[Option<u32>],
        command: VkCommand,
        parts: &[Part],
        answers: &[Answer],
    ) -> Result<(), Memory> {
        match command {
            VkCommand::Barrier { .. } => Ok(()),
            VkCommand::Clear { word, .. } => {
                self.clear_all(parts, word);
                Ok(())
            }
            VkCommand::Dispatch {
                routine,
                count,
                t0,
                t1,
                u0,
                b0,
            } => {
                if some_open(numbers) {
                    self.open_all(parts);
                    return Ok(());
                }
                let views = self.views_of(answers, [t0, t1, u0, b0]);
                self.dispatch(routine, count, b0, views)
            }
            VkCommand::Copy { .. }
            | VkCommand::CopyImage { .. }
            | VkCommand::CopyIn { .. }
            | VkCommand::CopyOut { .. } => {
                self.store_all(numbers, parts);
                Ok(())
            }
        }
    }

    /// The numbers behind a command that passes no end.
    pub(crate) fn take_effect(
        &mut self,
        at: At,
        command: VkCommand,
        parts: &[Part],
        answers: &[Answer],
    ) -> Result<(), Memory> {
        let numbers = self.numbers_read(at, stage_of(command), parts)?;
        let done = self.store_effect(numbers.as_slice(), command, parts, answers);
        drop(numbers);
        done
    }
}
