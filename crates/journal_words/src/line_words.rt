//! The words of a line, read one after the other.

ghost use Rattle.std.specs.Prelude.{◌≡◌, ◌==◌, ◌≤◌, length, map, take, drop, slice_get, IfOk, OnOk, None};
ghost use Rattle.std.specs.Option.{option_map};
ghost use Rattle.line_forms.specs.Reading.{word_of};
ghost use Rattle.journal_words.specs.Fields.{pair_of};
ghost use Rattle.journal_words.specs.Words.{narrow_of};
ghost use Rattle.journal_words.specs.LineWords.{accesses_next, all_next, all_or_next, all_or_number_of, class_next, count_next, data_next, finished as finished_by, first_of, home_next, kept, layout_next, left_in, literal_next, number_next, pairs_before as pairs_before_text, register_next, routine_next, stages_next, viewed_next, wide_next, with_cause};

use crate::each::{data_words, numbers, pairs, place_of_word};
use crate::registers::{count, register};
use crate::sets::{accesses, stages};
use crate::tables::{class, home, is_of_image, layout, routine};
use crate::words::{data, literal, narrow, wide};
use dx_base::{Class, Home, Memory, Routine, Seq};
use line_forms::Cause;
use std::alloc::Global;
use trace_words::is_word;
use vk_types::{Accesses, Count, Register, Stages, VkLayout};

/// The words of a line that are still to be read, and the earliest cause against it so far.
#[derive(Clone, Copy)]
pub struct LineWords<'a> {
    words: &'a [&'a [u8]],
    cause: Option<Cause>,
}

/// The words before a place.
#[tactic(auto, using(crate::proofs::WordPlaces::map_take))]
fn front_of<'a, 'b>(words: &'b [&'a [u8]], at: usize) -> &'b [&'a [u8]]
    requires { at ≤ length words.now }
    ensures { map (λ w. w.now) result.now ≡ take at (map (λ w. w.now) words.now) }
{
    let (front, _) = words.split_at(at);
    front
}

/// The words from a place on.
#[tactic(auto, using(line_forms::proofs::EachWord::map_drop))]
fn behind<'a, 'b>(words: &'b [&'a [u8]], at: usize) -> &'b [&'a [u8]]
    requires { at ≤ length words.now }
    ensures { map (λ w. w.now) result.now ≡ drop at (map (λ w. w.now) words.now) }
{
    let (_, behind) = words.split_at(at);
    behind
}

/// `all`, which is None, or a number.
#[tactic(auto, unfolding(crate::specs::LineWords::all_or_number_of))]
fn all_or_number(word: &[u8]) -> Result<Option<u32>, Cause>
    ensures { result ≡ all_or_number_of word.now }
{
    if is_word(word, "all") {
        Ok(None)
    } else {
        Ok(Some(narrow(word)?))
    }
}

impl<'a> LineWords<'a> {
    /// No word is read so far.
    pub fn new(words: &'a [&'a [u8]]) -> LineWords<'a>
        ensures { left_in result ≡ record { words = map (λ w. w.now) words.now; cause = None } }
    {
        LineWords { words, cause: None }
    }

    /// No word is left.
    pub fn is_over(&self) -> bool
        ensures { result ≡ (length (left_in self.now).words == 0) }
    {
        self.words.is_empty()
    }

    /// The next word, where there is one.
    fn take(&mut self) -> Option<&'a [u8]>
        ensures word { option_map (λ w. w.now) result ≡ slice_get (left_in self.old).words 0 }
        ensures left { left_in self.new ≡ record (left_in self.old) { words = drop 1 (left_in self.old).words } }
    {
        match self.words {
            [] => None,
            [word, words @ ..] => {
                self.words = words;
                Some(word)
            }
        }
    }

    /// One more cause.
    fn add(&mut self, cause: Cause)
        ensures { left_in self.new ≡ record (left_in self.old) { cause = with_cause cause (left_in self.old).cause } }
    {
        self.cause = Some(match self.cause {
            None => cause,
            Some(earlier) => earlier.earlier(cause),
        });
    }

    /// What is found, or else a default, with the cause kept.
    fn keep<T: Drop>(&mut self, found: Result<T, Cause>, otherwise: T) -> T
        ensures value { result ≡ (kept found otherwise (left_in self.old)).0 }
        ensures left { left_in self.new ≡ (kept found otherwise (left_in self.old)).1 }
    {
        match found {
            Ok(value) => value,
            Err(cause) => {
                self.add(cause);
                otherwise
            }
        }
    }

    /// The next word, a number below 2^32.
    #[tactic(auto, unfolding(crate::specs::LineWords::next))]
    pub fn number(&mut self) -> u32
        ensures value { result ≡ (number_next (left_in self.old)).0 }
        ensures left { left_in self.new ≡ (number_next (left_in self.old)).1 }
    {
        match self.take() {
            None => self.keep(Err(Cause::Form), 0),
            Some(word) => self.keep(narrow(word), 0),
        }
    }

    /// The next word, a number below 2^64.
    #[tactic(auto, unfolding(crate::specs::LineWords::next))]
    pub fn wide(&mut self) -> u64
        ensures value { result ≡ (wide_next (left_in self.old)).0 }
        ensures left { left_in self.new ≡ (wide_next (left_in self.old)).1 }
    {
        match self.take() {
            None => self.keep(Err(Cause::Form), 0),
            Some(word) => self.keep(wide(word), 0),
        }
    }

    /// The next word, a data word.
    #[tactic(auto, unfolding(crate::specs::LineWords::next))]
    pub fn data(&mut self) -> u32
        ensures value { result ≡ (data_next (left_in self.old)).0 }
        ensures left { left_in self.new ≡ (data_next (left_in self.old)).1 }
    {
        match self.take() {
            None => self.keep(Err(Cause::Form), 0),
            Some(word) => self.keep(data(word), 0),
        }
    }

    /// The next word, a layout.
    #[tactic(auto, unfolding(crate::specs::LineWords::next))]
    pub fn layout(&mut self) -> VkLayout
        ensures value { result ≡ (layout_next (left_in self.old)).0 }
        ensures left { left_in self.new ≡ (layout_next (left_in self.old)).1 }
    {
        match self.take() {
            None => self.keep(Err(Cause::Form), VkLayout::Undefined),
            Some(word) => self.keep(layout(word), VkLayout::Undefined),
        }
    }

    /// The next word, where a buffer lies.
    #[tactic(auto, unfolding(crate::specs::LineWords::next))]
    pub fn home(&mut self) -> Home
        ensures value { result ≡ (home_next (left_in self.old)).0 }
        ensures left { left_in self.new ≡ (home_next (left_in self.old)).1 }
    {
        match self.take() {
            None => self.keep(Err(Cause::Form), Home::Upload),
            Some(word) => self.keep(home(word), Home::Upload),
        }
    }

    /// The next word, the class of a view.
    #[tactic(auto, unfolding(crate::specs::LineWords::next))]
    pub fn class(&mut self) -> Class
        ensures value { result ≡ (class_next (left_in self.old)).0 }
        ensures left { left_in self.new ≡ (class_next (left_in self.old)).1 }
    {
        match self.take() {
            None => self.keep(Err(Cause::Form), Class::Cbv),
            Some(word) => self.keep(class(word), Class::Cbv),
        }
    }

    /// The next word, whether a view is one of an image.
    #[tactic(auto, unfolding(crate::specs::LineWords::next))]
    pub fn viewed(&mut self) -> bool
        ensures value { result ≡ (viewed_next (left_in self.old)).0 }
        ensures left { left_in self.new ≡ (viewed_next (left_in self.old)).1 }
    {
        match self.take() {
            None => self.keep(Err(Cause::Form), false),
            Some(word) => self.keep(is_of_image(word), false),
        }
    }

    /// The next word, a routine.
    #[tactic(auto, unfolding(crate::specs::LineWords::next))]
    pub fn routine(&mut self) -> Routine
        ensures value { result ≡ (routine_next (left_in self.old)).0 }
        ensures left { left_in self.new ≡ (routine_next (left_in self.old)).1 }
    {
        match self.take() {
            None => self.keep(Err(Cause::Form), Routine::Fill),
            Some(word) => self.keep(routine(word), Routine::Fill),
        }
    }

    /// The next word, a register.
    #[tactic(auto, unfolding(crate::specs::LineWords::next))]
    pub fn register(&mut self) -> Register
        ensures value { result ≡ (register_next (left_in self.old)).0 }
        ensures left { left_in self.new ≡ (register_next (left_in self.old)).1 }
    {
        match self.take() {
            None => self.keep(Err(Cause::Form), Register::Unbound),
            Some(word) => self.keep(register(word), Register::Unbound),
        }
    }

    /// The next word, a count.
    #[tactic(auto, unfolding(crate::specs::LineWords::next))]
    pub fn count(&mut self) -> Count
        ensures value { result ≡ (count_next (left_in self.old)).0 }
        ensures left { left_in self.new ≡ (count_next (left_in self.old)).1 }
    {
        match self.take() {
            None => self.keep(Err(Cause::Form), Count::Number(0)),
            Some(word) => self.keep(count(word), Count::Number(0)),
        }
    }

    /// The next word, `all` or a number below 2^32.
    #[tactic(auto, unfolding(crate::specs::LineWords::next))]
    pub fn all_or_number(&mut self) -> Option<u32>
        ensures value { result ≡ (all_or_next (left_in self.old)).0 }
        ensures left { left_in self.new ≡ (all_or_next (left_in self.old)).1 }
    {
        match self.take() {
            None => self.keep(Err(Cause::Form), None),
            Some(word) => self.keep(all_or_number(word), None),
        }
    }

    /// The next word, a set of stages.
    #[tactic(auto, unfolding(crate::specs::LineWords::next))]
    pub fn stages(&mut self) -> Stages
        ensures value { result.0 ≡ (stages_next (left_in self.old)).0 }
        ensures left { left_in self.new ≡ (stages_next (left_in self.old)).1 }
    {
        match self.take() {
            None => Stages(self.keep(Err(Cause::Form), 0)),
            Some(word) => Stages(self.keep(stages(word), 0)),
        }
    }

    /// The next word, a set of accesses.
    #[tactic(auto, unfolding(crate::specs::LineWords::next))]
    pub fn accesses(&mut self) -> Accesses
        ensures value { result.0 ≡ (accesses_next (left_in self.old)).0 }
        ensures left { left_in self.new ≡ (accesses_next (left_in self.old)).1 }
    {
        match self.take() {
            None => Accesses(self.keep(Err(Cause::Form), 0)),
            Some(word) => Accesses(self.keep(accesses(word), 0)),
        }
    }

    /// The next word, which is that text.
    #[tactic(auto, unfolding(crate::specs::LineWords::next))]
    pub fn literal(&mut self, text: &str)
        ensures { left_in self.new ≡ literal_next text.now (left_in self.old) }
    {
        match self.take() {
            None => {
                self.keep(Err(Cause::Form), false);
            }
            Some(word) => {
                self.keep(literal(text, word), false);
            }
        }
    }

    /// All words that are left, as numbers below 2^32.
    pub fn numbers(&mut self, alloc: Global) -> Result<Seq<u32>, Memory>
        ensures value { IfOk result (λ all. all ≡ (all_next narrow_of (left_in self.old)).0) }
        ensures left { OnOk result (left_in self.new ≡ (all_next narrow_of (left_in self.old)).1) }
    {
        let found = numbers(alloc, self.words)?;
        self.words = &[];
        Ok(self.keep(found, Seq::new(alloc)))
    }

    /// All words that are left, as data words.
    pub fn data_words(&mut self, alloc: Global) -> Result<Seq<u32>, Memory>
        ensures value { IfOk result (λ all. all ≡ (all_next word_of (left_in self.old)).0) }
        ensures left { OnOk result (left_in self.new ≡ (all_next word_of (left_in self.old)).1) }
    {
        let found = data_words(alloc, self.words)?;
        self.words = &[];
        Ok(self.keep(found, Seq::new(alloc)))
    }

    /// All words that are left, as timelines and values.
    pub fn pairs(&mut self, alloc: Global) -> Result<Seq<(u32, u64)>, Memory>
        ensures value { IfOk result (λ all. all ≡ (all_next pair_of (left_in self.old)).0) }
        ensures left { OnOk result (left_in self.new ≡ (all_next pair_of (left_in self.old)).1) }
    {
        let found = pairs(alloc, self.words)?;
        self.words = &[];
        Ok(self.keep(found, Seq::new(alloc)))
    }

    /// The words before the first that is a text, as timelines and values.
    #[tactic(auto, unfolding(crate::specs::LineWords::pairs_before))]
    pub fn pairs_before(&mut self, alloc: Global, text: &str) -> Result<Seq<(u32, u64)>, Memory>
        ensures value { IfOk result (λ all. all ≡ (pairs_before_text text.now (left_in self.old)).0) }
        ensures left { OnOk result (left_in self.new ≡ (pairs_before_text text.now (left_in self.old)).1) }
    {
        let at = place_of_word(text, self.words);
        let found = pairs(alloc, front_of(self.words, at))?;
        self.words = behind(self.words, at);
        Ok(self.keep(found, Seq::new(alloc)))
    }

    /// What the line says, where no word is left and there is no cause against it.
    #[tactic(auto, unfolding(crate::specs::LineWords::finished))]
    pub fn finished<T: Drop>(&self, value: T) -> Result<T, Cause>
        ensures { result ≡ finished_by value (left_in self.now) }
    {
        if !self.words.is_empty() {
            return Err(Cause::Form);
        }
        match self.cause {
            None => Ok(value),
            Some(cause) => Err(cause),
        }
    }
}
