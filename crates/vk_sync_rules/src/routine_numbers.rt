//! The numbers after commands.

ghost use Rattle.std.specs.Prelude.{◌≡◌, ◌+◌, [], ◌∷◌, map, slice_index_or, Some, IfOk, OnOk};
ghost use Rattle.vk_sync_rules.specs.Dispatches.{after_dispatch, after_puts as numbers_after_puts, after_routine as numbers_after_routine, invocations_of as invocations_in, numbers_of_dispatch as numbers_of_routine, numbers_used as numbers_in_use, word_of_b0 as word_in_b0};
ghost use Rattle.vk_sync_rules.specs.Machines.{dispatched, numbers_after_by, numbers_of, others_written, rows_copied, state_of};
ghost use Rattle.vk_sync_rules.specs.Numbers.{opened_all, stored};
ghost use Rattle.vk_sync_rules.specs.Pieces.{written_ranges as ranges_written};
ghost use Rattle.vk_sync_rules.specs.NextState.{after_clear as numbers_after_clear, numbers_changed as numbers_of_change, whole_sub as words_of_sub};

use crate::command_rules::{Site, whole_sub};
use crate::commands::subs_of;
use crate::copies::copied_rows;
use crate::dispatches::{DispatchViews, used_of, views_of};
use crate::layouts::is_undefined;
use crate::machine::VkMachine;
use crate::numbers::NumberTable;
use crate::numbers_read::written_ranges;
use crate::orders::sort_of;
use crate::pieces::Piece;
use crate::places::Place;
use crate::ranges::{VkResource, WordRange};
use crate::registers::words_of_register;
use crate::slots::slots_of;
use dx_base::{Class, Memory, Routine, Seq};
use routines::{Extent, Numbers, Put, Uses, puts_by, read_of_u0};
use std::alloc::Global;
use vk_types::{Change, Count, DevicePlan, Register, VkCommand};

/// The first of some numbers; 0 where there is none.
fn first_of(numbers: &Seq<u32>) -> u32
    ensures { result ≡ slice_index_or numbers.now 0 0 }
{
    if 0 < numbers.len() { *numbers.at(0) } else { 0 }
}

/// The words of some subresources.
fn whole_subs(
    alloc: Global,
    plan: &DevicePlan,
    image: u32,
    subs: &[u32],
) -> Result<Seq<WordRange>, Memory>
    ensures { IfOk result (λ ranges. ranges ≡ map (words_of_sub plan.now image) subs.now) }
{
    let mut ranges = Seq::new(alloc);
    for sub in subs {
        ranges.push(whole_sub(plan, image, *sub))?;
    }
    Ok(ranges)
}

impl NumberTable {
    /// How many invocations a dispatch has: the lesser of the word and the most, where a word gives them.
    fn invocations_of(&self, alloc: Global, count: Count) -> Result<u32, Memory>
        ensures { IfOk result (λ n. n ≡ invocations_in (numbers_of self.now) count) }
    {
        match count {
            Count::Number(n) => Ok(n),
            Count::Word { buffer, word, most } => {
                let range = WordRange {
                    resource: VkResource::Buffer(buffer),
                    first: word as u64,
                    count: 1,
                };
                let numbers = self.known_in(alloc, range)?;
                Ok(most.min(first_of(&numbers)))
            }
        }
    }

    /// The numbers that a routine reads in a register.
    fn numbers_used(
        &self,
        alloc: Global,
        view: Option<WordRange>,
        extent: Extent,
        n: u32,
    ) -> Result<Seq<u32>, Memory>
        ensures { IfOk result (λ numbers. numbers ≡ numbers_in_use (numbers_of self.now) view extent n) }
    {
        match view {
            None => Ok(Seq::new(alloc)),
            Some(range) => self.known_in(alloc, used_of(extent, n, range)),
        }
    }

    /// The first number that a routine reads in a register.
    fn first_used(
        &self,
        alloc: Global,
        view: Option<WordRange>,
        extent: Extent,
        n: u32,
    ) -> Result<u32, Memory>
        ensures { IfOk result (λ word. word ≡ slice_index_or (numbers_in_use (numbers_of self.now) view extent n) 0 0) }
    {
        let numbers = self.numbers_used(alloc, view, extent, n)?;
        Ok(first_of(&numbers))
    }

    /// The word of b0: a constant, or the first word of its view.
    fn word_of_b0(
        &self,
        alloc: Global,
        view: Option<WordRange>,
        extent: Extent,
        n: u32,
        register: Register,
    ) -> Result<u32, Memory>
        ensures { IfOk result (λ word. word ≡ word_in_b0 (numbers_of self.now) view extent n register) }
    {
        match register {
            Register::Unbound => Ok(0),
            Register::Constant(word) => Ok(word),
            Register::Root { .. } => self.first_used(alloc, view, extent, n),
            Register::Fixed(_) => self.first_used(alloc, view, extent, n),
            Register::Slot { .. } => self.first_used(alloc, view, extent, n),
        }
    }

    /// What a routine with `n` invocations reads.
    fn numbers_of_dispatch(
        &self,
        alloc: Global,
        routine: Routine,
        n: u32,
        views: DispatchViews,
        b0: Register,
    ) -> Result<Numbers, Memory>
        ensures { IfOk result (λ numbers. numbers ≡ numbers_of_routine (numbers_of self.now) routine n views b0) }
    {
        let used = Uses::of(routine);
        Ok(Numbers {
            t0: self.numbers_used(alloc, views.t0, used.t0, n)?,
            t1: self.numbers_used(alloc, views.t1, used.t1, n)?,
            u0: self.numbers_used(alloc, views.u0, read_of_u0(routine), n)?,
            c: self.word_of_b0(alloc, views.b0, used.b0, n, b0)?,
        })
    }

    /// Stores what is put into the words of a range. A word past all that can be numbered is want of memory.
    fn store_put(&mut self, alloc: Global, range: WordRange, put: Put) -> Result<(), Memory>
        ensures { OnOk result (numbers_of self.new ≡ stored (record { resource = range.resource; first = range.first + put.word; count = 1 }) (Some put.value ∷ []) (numbers_of self.old)) }
    {
        let Some(first) = range.first.checked_add(put.word as u64) else {
            return Err(Memory);
        };
        let word = WordRange {
            resource: range.resource,
            first,
            count: 1,
        };
        self.store(alloc, word, &[Some(put.value)])
    }

    /// Stores what is put into the words of a range, in order.
    fn store_puts(&mut self, alloc: Global, range: WordRange, puts: &[Put]) -> Result<(), Memory>
        ensures { OnOk result (numbers_of self.new ≡ numbers_after_puts range puts.now (numbers_of self.old)) }
    {
        let mut rest = puts;
        while let Some((put, behind)) = rest.split_first() {
            self.store_put(alloc, range, *put)?;
            rest = behind;
        }
        Ok(())
    }

    /// Stores what a routine with `n` invocations does. A view of 2^32 words is want of memory.
    fn store_routine(
        &mut self,
        alloc: Global,
        routine: Routine,
        n: u32,
        view: Option<WordRange>,
        numbers: &Numbers,
    ) -> Result<(), Memory>
        ensures { OnOk result (numbers_of self.new ≡ numbers_after_routine routine n view numbers.now (numbers_of self.old)) }
    {
        let Some(range) = view else {
            return Ok(());
        };
        if range.count > u32::MAX as u64 {
            return Err(Memory);
        }
        let puts = puts_by(alloc, routine, n, range.count as u32, numbers)?;
        self.store_puts(alloc, range, puts.as_slice())
    }

    /// Stores what a dispatch does whose reads are all known.
    fn store_dispatch(
        &mut self,
        alloc: Global,
        routine: Routine,
        count: Count,
        views: DispatchViews,
        b0: Register,
    ) -> Result<(), Memory>
        ensures { OnOk result (numbers_of self.new ≡ after_dispatch routine count views b0 (numbers_of self.old)) }
    {
        let n = self.invocations_of(alloc, count)?;
        let numbers = self.numbers_of_dispatch(alloc, routine, n, views, b0)?;
        self.store_routine(alloc, routine, n, views.u0, &numbers)
    }

    /// Stores the word of a clear in all words of its view.
    fn store_clear(
        &mut self,
        alloc: Global,
        view: Option<WordRange>,
        word: u32,
    ) -> Result<(), Memory>
        ensures { OnOk result (numbers_of self.new ≡ numbers_after_clear view word (numbers_of self.old)) }
    {
        let Some(range) = view else {
            return Ok(());
        };
        let new = vec![in alloc; Some(word); range.count as usize]?;
        self.store(alloc, range, new.as_slice())
    }

    /// Leaves any number in the words that pieces write.
    fn open_written(&mut self, alloc: Global, pieces: &[Piece]) -> Result<(), Memory>
        ensures { OnOk result (numbers_of self.new ≡ opened_all (ranges_written pieces.now) (numbers_of self.old)) }
    {
        let ranges = written_ranges(alloc, pieces)?;
        self.open_all(alloc, ranges.as_slice())
    }
}

impl VkMachine {
    /// The numbers after a layout change: from UNDEFINED any may stand.
    fn numbers_changed(&self, numbers: &mut NumberTable, change: Change) -> Result<(), Memory>
        ensures { OnOk result (numbers_of numbers.new ≡ numbers_of_change (state_of self.now) change (numbers_of numbers.old)) }
    {
        if !is_undefined(change.old) {
            return Ok(());
        }
        let subs = subs_of(self.alloc, &self.plan, change)?;
        let ranges = whole_subs(self.alloc, &self.plan, change.image, subs.as_slice())?;
        numbers.open_all(self.alloc, ranges.as_slice())
    }

    /// Copies the rows of a copy; other commands have none.
    fn copy_rows(
        &self,
        numbers: &mut NumberTable,
        queue: u32,
        place: Place,
        command: VkCommand,
    ) -> Result<(), Memory>
        ensures { OnOk result (numbers_of numbers.new ≡ rows_copied (state_of self.now) queue place command (numbers_of numbers.old)) }
    {
        let site = Site {
            queue,
            stages: sort_of(command).takes,
            place,
        };
        let rows = copied_rows(self.alloc, &self.plan, command)?;
        self.store_rows(numbers, site, rows.as_slice())
    }

    /// The numbers after a dispatch with these pieces.
    fn numbers_dispatched(
        &self,
        numbers: &mut NumberTable,
        site: Site,
        pieces: &[Piece],
        routine: Routine,
        count: Count,
        views: DispatchViews,
        b0: Register,
    ) -> Result<(), Memory>
        ensures { OnOk result (numbers_of numbers.new ≡ dispatched (state_of self.now) site.queue site.place pieces.now routine count views b0 site.stages (numbers_of numbers.old)) }
    {
        if self.some_read_open(site, pieces)? {
            numbers.open_written(self.alloc, pieces)
        } else {
            numbers.store_dispatch(self.alloc, routine, count, views, b0)
        }
    }

    /// The numbers after what else a command does than to copy rows, where it passes no end and has these pieces.
    fn write_others(
        &self,
        numbers: &mut NumberTable,
        queue: u32,
        place: Place,
        answers: &[u32],
        pieces: &[Piece],
        command: VkCommand,
    ) -> Result<(), Memory>
        ensures { OnOk result (numbers_of numbers.new ≡ others_written (state_of self.now) queue place answers.now pieces.now command (numbers_of numbers.old)) }
    {
        let slots = slots_of(command);
        match command {
            VkCommand::Barrier { change: None, .. } => Ok(()),
            VkCommand::Barrier {
                change: Some(change),
                ..
            } => self.numbers_changed(numbers, change),
            VkCommand::Copy { .. } => Ok(()),
            VkCommand::CopyImage { .. } => Ok(()),
            VkCommand::CopyIn { .. } => Ok(()),
            VkCommand::CopyOut { .. } => Ok(()),
            VkCommand::Clear { target, word } => {
                let view = words_of_register(&self.plan, slots, answers, Class::Uav, target);
                numbers.store_clear(self.alloc, view, word)
            }
            VkCommand::Dispatch {
                routine,
                count,
                t0,
                t1,
                u0,
                b0,
            } => {
                let site = Site {
                    queue,
                    stages: sort_of(command).takes,
                    place,
                };
                let views = views_of(&self.plan, slots, answers, t0, t1, u0, b0);
                self.numbers_dispatched(numbers, site, pieces, routine, count, views, b0)
            }
        }
    }

    /// The numbers after a command with these pieces; past an end, any may stand in the words of its destination.
    fn write_numbers(
        &self,
        numbers: &mut NumberTable,
        queue: u32,
        place: Place,
        outside: bool,
        answers: &[u32],
        pieces: &[Piece],
        command: VkCommand,
    ) -> Result<(), Memory>
        ensures { OnOk result (numbers_of numbers.new ≡ numbers_after_by (state_of self.now) queue place outside answers.now pieces.now command (numbers_of numbers.old)) }
    {
        if outside {
            return numbers.open_written(self.alloc, pieces);
        }
        self.copy_rows(numbers, queue, place, command)?;
        self.write_others(numbers, queue, place, answers, pieces, command)
    }

    /// The numbers after a command with these pieces.
    pub(crate) fn numbers_after(
        &self,
        queue: u32,
        place: Place,
        outside: bool,
        answers: &[u32],
        pieces: &[Piece],
        command: VkCommand,
    ) -> Result<NumberTable, Memory>
        ensures { IfOk result (λ after. numbers_of after ≡ numbers_after_by (state_of self.now) queue place outside answers.now pieces.now command (state_of self.now).numbers) }
    {
        let mut numbers = self.numbers.copied(self.alloc)?;
        self.write_numbers(
            &mut numbers,
            queue,
            place,
            outside,
            answers,
            pieces,
            command,
        )?;
        Ok(numbers)
    }
}
