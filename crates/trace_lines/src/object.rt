//! The objects that lines declare.

ghost use Rattle.std.specs.Prelude.{◌≡◌, ◌≤◌, ◌++◌, OnOk};
ghost use Rattle.trace_lines.specs.declared.item.Item.TheVariants.{Declares};
ghost use Rattle.trace_lines.specs.Formed.{item_text};
ghost use Rattle.trace_lines.specs.Kinds.{kind_of, is_refused_size, is_refused, words_of_object};

use crate::form::Form;
use crate::known::Known;
use dx_base::{Home, ListType, Memory};
use line_forms::{Choice, Kind, PartValue, put_line};
use trace_words::Name;

/// An object that a line declares, its parts in the order of the line.
#[derive(Debug, PartialEq, Eq, Drop)]
pub enum Declared {
    /// A command queue.
    Queue { kind: ListType },
    /// A fence, with its starting value.
    Fence { value: u64 },
    /// A buffer, with its size in bytes.
    Buffer { home: Home, bytes: u64 },
    /// A command allocator.
    Allocator { kind: ListType },
    /// A command list.
    List { kind: ListType },
}

/// The creation of a buffer of that size in bytes is refused: it is empty, no whole words, or too large.
pub fn is_refused_size(bytes: u64) -> bool
    ensures { result ≡ is_refused_size bytes }
{
    bytes == 0 || (bytes % 4 != 0 || bytes > 1_048_576)
}

impl Declared {
    /// What kind of thing the object is.
    pub fn kind(&self) -> Kind
        ensures { result ≡ kind_of self.now }
    {
        match self {
            Declared::Queue { kind: _ } => Kind::Queue,
            Declared::Fence { value: _ } => Kind::Fence,
            Declared::Buffer { home: _, bytes: _ } => Kind::Resource,
            Declared::Allocator { kind: _ } => Kind::Allocator,
            Declared::List { kind: _ } => Kind::List,
        }
    }

    /// The creation of the object is refused.
    pub fn is_refused(&self) -> bool
        ensures { result ≡ is_refused self.now }
    {
        match self {
            Declared::Buffer { home: _, bytes } => is_refused_size(*bytes),
            Declared::Queue { kind: _ }
            | Declared::Fence { value: _ }
            | Declared::Allocator { kind: _ }
            | Declared::List { kind: _ } => false,
        }
    }

    /// The object's words; none where its creation is refused.
    pub fn words(&self) -> u64
        ensures value { result ≡ words_of_object self.now }
        ensures small { result ≤ 262144 }
    {
        match self {
            Declared::Buffer { home: _, bytes } => {
                if is_refused_size(*bytes) {
                    0
                } else {
                    *bytes / 4
                }
            }
            Declared::Queue { kind: _ }
            | Declared::Fence { value: _ }
            | Declared::Allocator { kind: _ }
            | Declared::List { kind: _ } => 0,
        }
    }
}

/// Appends the line of an object.
#[tactic(auto, unfolding(crate::specs::Formed::item_text))]
pub fn put_object(
    out: &mut Vec<u8>,
    known: &Known<'_>,
    name: &Name,
    object: &Declared,
) -> Result<(), Memory>
    ensures { OnOk result (out.new.items ≡ out.old.items ++ item_text known.now (Declares name.now object.now)) }
{
    let (first, name) = (PartValue::AsItStands, PartValue::NewName(name.copied()));
    match object {
        Declared::Queue { kind } => {
            let kind = PartValue::Chosen(Choice::Type(*kind));
            put_line(out, known, Form::Queue, &[first, name, kind], &[])
        }
        Declared::Fence { value } => {
            let value = PartValue::Number(*value);
            put_line(out, known, Form::Fence, &[first, name, value], &[])
        }
        Declared::Buffer { home, bytes } => {
            let home = PartValue::Chosen(Choice::Home(*home));
            let values = [first, name, home, PartValue::Number(*bytes)];
            put_line(out, known, Form::Buffer, &values, &[])
        }
        Declared::Allocator { kind } => {
            let kind = PartValue::Chosen(Choice::Type(*kind));
            put_line(out, known, Form::Allocator, &[first, name, kind], &[])
        }
        Declared::List { kind } => {
            let kind = PartValue::Chosen(Choice::Type(*kind));
            put_line(out, known, Form::List, &[first, name, kind], &[])
        }
    }
}
