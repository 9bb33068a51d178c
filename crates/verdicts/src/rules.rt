//! The rules that a history may break, and what is said of it.

ghost use Rattle.std.specs.Prelude.{◌≡◌};
ghost use Rattle.verdicts.specs.Rules.{rule_word};

/// A rule of use of Direct3D 12.
#[derive(Clone, Copy, Debug, PartialEq, Eq)]
pub enum Rule {
    /// Two scopes access a word, one of them writing, and the later one does not know the earlier.
    B1,
    /// A scope accesses a word twice, once writing, and no barrier between covers the earlier access.
    B2,
    /// A state or a layout does not allow an access.
    B3,
    /// The state or the layout before a barrier is not the current one.
    B4,
    /// A barrier with nothing before it concerns what its scope used already.
    B5,
    /// A descriptor that a called execute may read is written.
    B6,
    /// A static descriptor is unset, or written while it is in use.
    B7,
    /// A descriptor's last write is not known to its user.
    B8,
    /// A register of a routine has no descriptor of its class.
    B9,
    /// A host access and another access of a word, one of them writing, and the later one does not know
    /// the earlier.
    B10,
    /// An allocator is reset while commands recorded from it may still run.
    B11,
    /// A lost word is read.
    B12,
    /// Static data of a descriptor are written while it is in use.
    B13,
}

impl Rule {
    /// The rule's name.
    pub fn word(self) -> &'static str
        ensures { result.now ≡ rule_word self }
    {
        match self {
            Rule::B1 => "B1",
            Rule::B2 => "B2",
            Rule::B3 => "B3",
            Rule::B4 => "B4",
            Rule::B5 => "B5",
            Rule::B6 => "B6",
            Rule::B7 => "B7",
            Rule::B8 => "B8",
            Rule::B9 => "B9",
            Rule::B10 => "B10",
            Rule::B11 => "B11",
            Rule::B12 => "B12",
            Rule::B13 => "B13",
        }
    }
}

/// What is said of a history.
#[derive(Clone, Copy, Debug, PartialEq, Eq)]
pub enum Verdict {
    /// No event breaks a rule.
    Clean,
    /// The first event that breaks a rule breaks this one: the least that is broken at its first command that breaks
    /// one. The number is the event's place in the history, counted from 1.
    Broken(Rule, u64),
}
