//! What the parts of a line mean, taken by their places.

ghost use Rattle.std.specs.Prelude.{◌≡◌};
ghost use Rattle.line_forms.specs.Values.{id_in, name_in, number_in, word_in, set_in, choice_in, all_or_in, all_or_number_in, id_at, name_at, number_at, word_at, set_at, choice_at, all_or_at, all_or_number_at};

use crate::choice::Choice;
use crate::part::PartValue;
use dx_base::ListType;
use trace_words::Name;

impl PartValue {
    /// The number of the thing that is named.
    pub fn id(&self) -> u32
        ensures { result ≡ id_in self.now }
    {
        match self {
            PartValue::Id(id) => *id,
            _ => 0,
        }
    }

    /// A copy of the name that is declared.
    pub fn name(&self) -> Name
        ensures { result ≡ name_in self.now }
    {
        match self {
            PartValue::NewName(name) => name.copied(),
            _ => Name::a(),
        }
    }

    /// The number.
    pub fn number(&self) -> u64
        ensures { result ≡ number_in self.now }
    {
        match self {
            PartValue::Number(number) => *number,
            _ => 0,
        }
    }

    /// The number that a data word or a flag word writes.
    pub fn word(&self) -> u32
        ensures { result ≡ word_in self.now }
    {
        match self {
            PartValue::Word(word) => *word,
            _ => 0,
        }
    }

    /// The set, by its bits.
    pub fn set(&self) -> u32
        ensures { result ≡ set_in self.now }
    {
        match self {
            PartValue::Set(set) => *set,
            _ => 0,
        }
    }

    /// What is chosen.
    pub fn choice(&self) -> Choice
        ensures { result ≡ choice_in self.now }
    {
        match self {
            PartValue::Chosen(choice) => *choice,
            _ => Choice::Type(ListType::Direct),
        }
    }

    /// The number of the thing that is named, where not all are meant.
    pub fn all_or(&self) -> Option<u32>
        ensures { result ≡ all_or_in self.now }
    {
        match self {
            PartValue::AllOr(all_or) => *all_or,
            _ => None,
        }
    }

    /// The number, where not all are meant.
    pub fn all_or_number(&self) -> Option<u64>
        ensures { result ≡ all_or_number_in self.now }
    {
        match self {
            PartValue::AllOrNumber(all_or_number) => *all_or_number,
            _ => None,
        }
    }
}

/// The number of the thing that is named at that place.
pub fn id_at(values: &[PartValue], at: usize) -> u32
    ensures { result ≡ id_at values.now at }
{
    match values.get(at) {
        Some(value) => value.id(),
        None => 0,
    }
}

/// A copy of the name that is declared at that place.
pub fn name_at(values: &[PartValue], at: usize) -> Name
    ensures { result ≡ name_at values.now at }
{
    match values.get(at) {
        Some(value) => value.name(),
        None => Name::a(),
    }
}

/// The number at that place.
pub fn number_at(values: &[PartValue], at: usize) -> u64
    ensures { result ≡ number_at values.now at }
{
    match values.get(at) {
        Some(value) => value.number(),
        None => 0,
    }
}

/// The number that a data word or a flag word writes at that place.
pub fn word_at(values: &[PartValue], at: usize) -> u32
    ensures { result ≡ word_at values.now at }
{
    match values.get(at) {
        Some(value) => value.word(),
        None => 0,
    }
}

/// The set, by its bits at that place.
pub fn set_at(values: &[PartValue], at: usize) -> u32
    ensures { result ≡ set_at values.now at }
{
    match values.get(at) {
        Some(value) => value.set(),
        None => 0,
    }
}

/// What is chosen at that place.
pub fn choice_at(values: &[PartValue], at: usize) -> Choice
    ensures { result ≡ choice_at values.now at }
{
    match values.get(at) {
        Some(value) => value.choice(),
        None => Choice::Type(ListType::Direct),
    }
}

/// The number of the thing that is named, where not all are meant at that place.
pub fn all_or_at(values: &[PartValue], at: usize) -> Option<u32>
    ensures { result ≡ all_or_at values.now at }
{
    match values.get(at) {
        Some(value) => value.all_or(),
        None => None,
    }
}

/// The number, where not all are meant at that place.
pub fn all_or_number_at(values: &[PartValue], at: usize) -> Option<u64>
    ensures { result ≡ all_or_number_at values.now at }
{
    match values.get(at) {
        Some(value) => value.all_or_number(),
        None => None,
    }
}
