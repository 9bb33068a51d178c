//! What was read of a trace so far.

ghost use Rattle.std.specs.Prelude.{◌≡◌, map, false, OnOk, IfOk};
ghost use Rattle.trace_lines.specs.declared.item.Item.TheVariants as item;
ghost use Rattle.trace_text.specs.Gives.{Gives, Leaves};
ghost use Rattle.trace_text.specs.Reading.{opening, has_queue, has_thread, is_second, is_misplaced, fault_of_place, is_formless, placed_of, is_over, with_item, taken_of, and_then, read_item, meant_of, by_form, with_words};

use crate::declarations::Declarations;
use crate::line_fault::LineFault;
use crate::name_table::NameTable;
use crate::scripts::Scripts;
use d3d_machine::Call;
use dx_base::{Memory, THREADS};
use line_forms::{Cause, Kind, read_line};
use std::alloc::Global;
use trace_lines::{Class, Declared, Form, Item, Thing, form_of, is_later, item_of};
use trace_words::Name;

/// What was read of a trace so far: whether its header and its end were, the declared names, the declared objects,
/// and the scripts of the threads.
#[derive(Drop)]
pub struct Reading {
    pub begun: bool,
    pub ended: bool,
    pub names: NameTable,
    pub declared: Declarations,
    pub scripts: Scripts,
}

/// The cause is that words are of no form.
fn is_formless(cause: Cause) -> bool
    ensures { result ≡ is_formless cause }
{
    match cause {
        Cause::Form => true,
        Cause::Size
        | Cause::Line
        | Cause::Cut
        | Cause::After
        | Cause::Later
        | Cause::Order
        | Cause::Number
        | Cause::Again
        | Cause::Name
        | Cause::Limit => false,
    }
}

/// What a line means where it stands: a line of no form is told first, then one that may not stand there, and then
/// any other cause.
#[tactic(auto, unfolding(crate::specs::Reading::placed_of))]
fn placed(place: Option<Cause>, found: Result<Item, Cause>) -> Result<Item, Cause>
    ensures { result ≡ placed_of place found }
{
    let Some(place) = place else {
        return found;
    };
    match found {
        Ok(_) => Err(place),
        Err(cause) => {
            if is_formless(cause) {
                Err(cause)
            } else {
                Err(place)
            }
        }
    }
}

impl Reading {
    /// Nothing is read; takes no memory.
    pub fn new(alloc: Global) -> Reading
        ensures { result ≡ opening }
    {
        Reading {
            begun: false,
            ended: false,
            names: NameTable::new(alloc),
            declared: Declarations::new(alloc),
            scripts: Scripts::new(alloc),
        }
    }

    /// A line is a second header, a declaration behind a thread, or a call before the first thread.
    fn is_misplaced(&self, class: Class) -> bool
        ensures { result ≡ is_misplaced self.now class }
    {
        match class {
            Class::Header => self.begun,
            Class::Queue | Class::Declaration => self.scripts.len() > 0,
            Class::Thread => false,
            Class::Call => self.scripts.len() == 0,
            Class::End => false,
        }
    }

    /// There is a queue.
    fn has_queue(&self) -> bool
        ensures { result ≡ has_queue self.now }
    {
        self.declared.count(Kind::Queue) > 0
    }

    /// There is a thread.
    fn has_thread(&self) -> bool
        ensures { result ≡ has_thread self.now }
    {
        self.scripts.len() > 0
    }

    /// A line is a second queue or a second thread.
    fn is_second(&self, class: Class) -> bool
        ensures { result ≡ is_second self.now class }
    {
        match class {
            Class::Queue => self.has_queue(),
            Class::Thread => self.has_thread(),
            Class::Header | Class::Declaration | Class::Call | Class::End => false,
        }
    }

    /// Why a line of a form may not stand there.
    #[tactic(auto, unfolding(crate::specs::Reading::fault_of_place))]
    fn fault_of_place(&self, class: Class) -> Option<Cause>
        ensures { result ≡ fault_of_place self.now class }
    {
        if self.is_second(class) {
            Some(Cause::Later)
        } else if self.is_misplaced(class) {
            Some(Cause::Order)
        } else if self.begun || class == Class::Header {
            None
        } else {
            Some(Cause::Form)
        }
    }

    /// A line passes a limit.
    #[tactic(auto, unfolding(crate::specs::Reading::is_over))]
    fn is_over(&self, item: &Item) -> bool
        ensures { result ≡ is_over self.now item.now }
    {
        match item {
            Item::Header => false,
            Item::Declares(_, object) => self.declared.is_one_too_many(object),
            Item::Starts(_) => THREADS <= self.scripts.len(),
            Item::Calls(call) => self.scripts.is_call_too_many(call),
            Item::Ends => false,
        }
    }

    /// Declares an object by its name.
    #[tactic(auto, unfolding(crate::specs::Reading::is_over, crate::specs::Reading::with_item))]
    fn declare(&mut self, name: Name, object: Declared) -> Result<(), Memory>
        requires { is_over self.old (item.Declares name object) ≡ false }
        ensures { OnOk result (self.new ≡ with_item self.old (item.Declares name object)) }
    {
        let thing = self.declared.next(&object);
        self.names.declare(name, thing)?;
        self.declared.push(object)
    }

    /// Declares a thread by its name, and begins its script.
    #[tactic(auto, unfolding(crate::specs::Reading::is_over, crate::specs::Reading::with_item))]
    fn start(&mut self, alloc: Global, name: Name) -> Result<(), Memory>
        requires { is_over self.old (item.Starts name) ≡ false }
        ensures { OnOk result (self.new ≡ with_item self.old (item.Starts name)) }
    {
        let number = self.scripts.len() as u32;
        let kind = Kind::Thread;
        self.names.declare(name, Thing { kind, number })?;
        self.scripts.start(alloc)
    }

    /// Takes a line, where it passes no limit.
    #[tactic(auto, unfolding(crate::specs::Reading::is_over, crate::specs::Reading::with_item, crate::specs::Reading::taken_of))]
    fn take(&mut self, alloc: Global, item: Item) -> Result<(), LineFault>
        ensures { Leaves result self.new (taken_of self.old item) }
    {
        if self.is_over(&item) {
            return Err(LineFault::Refused(Cause::Limit));
        }
        match item {
            Item::Header => self.begun = true,
            Item::Declares(name, object) => self.declare(name, object)?,
            Item::Starts(name) => self.start(alloc, name)?,
            Item::Calls(call) => self.scripts.push(call)?,
            Item::Ends => self.ended = true,
        }
        Ok(())
    }

    /// What words mean by a form, or why they mean nothing.
    #[tactic(auto, unfolding(crate::specs::Reading::read_item))]
    fn read_item(
        &self,
        alloc: Global,
        form: Form,
        words: &[&[u8]],
    ) -> Result<Result<Item, Cause>, Memory>
        ensures { IfOk result (λ item. item ≡ read_item self.now.names form (map (λ word. word.now) words.now)) }
    {
        match read_line(alloc, &self.names, form, words)? {
            Ok(line) => Ok(Ok(item_of(alloc, form, line)?)),
            Err(cause) => Ok(Err(cause)),
        }
    }

    /// What a line means where it stands, or why it is refused.
    #[tactic(auto, unfolding(crate::specs::Reading::meant_of))]
    fn meant(
        &self,
        alloc: Global,
        form: Form,
        words: &[&[u8]],
    ) -> Result<Result<Item, Cause>, Memory>
        ensures { IfOk result (λ meant. meant ≡ meant_of self.now form (map (λ word. word.now) words.now)) }
    {
        let found = self.read_item(alloc, form, words)?;
        Ok(placed(self.fault_of_place(form.class()), found))
    }

    /// Takes what a line means, where it passes no limit.
    fn take_meant(&mut self, alloc: Global, meant: Result<Item, Cause>) -> Result<(), LineFault>
        ensures { Leaves result self.new (and_then meant (taken_of self.old)) }
    {
        match meant {
            Ok(item) => self.take(alloc, item),
            Err(cause) => Err(LineFault::Refused(cause)),
        }
    }

    /// Takes a line of words by the form that they fit.
    fn take_form(
        &mut self,
        alloc: Global,
        form: Option<Form>,
        words: &[&[u8]],
    ) -> Result<(), LineFault>
        ensures { Leaves result self.new (by_form self.old form (map (λ word. word.now) words.now)) }
    {
        let Some(form) = form else {
            return Err(LineFault::Refused(Cause::Form));
        };
        let meant = self.meant(alloc, form, words)?;
        self.take_meant(alloc, meant)
    }

    /// Takes a line of words.
    #[tactic(auto, unfolding(crate::specs::Reading::with_words))]
    pub fn take_words(&mut self, alloc: Global, words: &[&[u8]]) -> Result<(), LineFault>
        ensures { Leaves result self.new (with_words self.old (map (λ word. word.now) words.now)) }
    {
        if is_later(words) {
            return Err(LineFault::Refused(Cause::Later));
        }
        self.take_form(alloc, form_of(words), words)
    }
}
