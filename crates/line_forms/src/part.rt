//! The parts of lines, and what they mean.

use crate::choice::{Choice, Choices};
use crate::kind::Kind;
use crate::sets::SetOf;
use trace_words::Name;

/// What may stand at a place of a line: one word.
#[derive(Clone, Copy, Debug, PartialEq, Eq)]
pub enum Part {
    /// That very word.
    Word(&'static str),
    /// The name of a thing of that kind.
    Name(Kind),
    /// A name that is not declared yet.
    NewName,
    /// A decimal number below 2^64.
    Number,
    /// 1 to 8 hexadecimal digits in lower case; printed with eight.
    DataWord,
    /// 1 to 8 hexadecimal digits in lower case; printed without leading zeros.
    FlagWord,
    /// Names of a set, each at most once, joined by `|`; printed in the order of their table.
    Set(SetOf),
    /// One of some words.
    Choice(Choices),
    /// `all`, or the name of a thing of that kind.
    AllOr(Kind),
    /// `all`, or a decimal number below 2^64.
    AllOrNumber,
}

/// What may stand behind the parts up to the end of a line.
#[derive(Clone, Copy, Debug, PartialEq, Eq)]
pub enum Rest {
    Nothing,
    /// Names of things of that kind, none or more.
    Names(Kind),
    /// 1 to 256 data words.
    Words,
}

/// What a part means.
#[derive(Debug, Drop)]
pub enum PartValue {
    /// The word says no more than that it is there.
    AsItStands,
    /// The number of the thing that is named, among those of its kind.
    Id(u32),
    /// A name that is declared.
    NewName(Name),
    Number(u64),
    /// What a data word or a flag word writes.
    Word(u32),
    /// A set, by its bits.
    Set(u32),
    Chosen(Choice),
    /// The thing that is named, or all.
    AllOr(Option<u32>),
    /// The number, or all.
    AllOrNumber(Option<u64>),
}
