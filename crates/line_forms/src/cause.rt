//! Why a line is refused.

ghost use Rattle.std.specs.Prelude.{◌≡◌};
ghost use Rattle.line_forms.specs.Causes.{rank_of, cause_word, earlier_of};

/// Why a trace is refused: the first of these that applies to its first bad line.
#[derive(Clone, Copy, Debug, PartialEq, Eq)]
pub enum Cause {
    /// The line holds the first byte past the most that a text may have.
    Size,
    /// The line is too long, or has a byte that no line has.
    Line,
    /// The line has no line feed, or the text stops there and no `end` came.
    Cut,
    /// The line stands behind `end`.
    After,
    /// The line is of a form that is not built yet, or says version 2 of the text.
    Later,
    /// The line has a form and may not stand there: it is a call before the first thread, a declaration of an object
    /// behind it, or a second header.
    Order,
    /// The line is of no form, or is the first line and not the header.
    Form,
    /// A number of the line is 2^64 or more.
    Number,
    /// The line declares a name that is declared.
    Again,
    /// The line names nothing that was declared before it, or a thing of another kind.
    Name,
    /// The line passes a limit: on the bytes of a name, on the count of objects of a kind, on the words of all buffers
    /// together, on the count of calls, or on the count of lists that calls of execute name.
    Limit,
}

impl Cause {
    /// The cause's name, in lower case.
    pub fn word(self) -> &'static str
        ensures { result.now ≡ cause_word self }
    {
        match self {
            Cause::Size => "size",
            Cause::Line => "line",
            Cause::Cut => "cut",
            Cause::After => "after",
            Cause::Later => "later",
            Cause::Order => "order",
            Cause::Form => "form",
            Cause::Number => "number",
            Cause::Again => "again",
            Cause::Name => "name",
            Cause::Limit => "limit",
        }
    }

    /// The place of the cause in the order in which causes are told.
    fn rank(self) -> u8
        ensures { result ≡ rank_of self }
    {
        match self {
            Cause::Size => 0,
            Cause::Line => 1,
            Cause::Cut => 2,
            Cause::After => 3,
            Cause::Later => 4,
            Cause::Order => 5,
            Cause::Form => 6,
            Cause::Number => 7,
            Cause::Again => 8,
            Cause::Name => 9,
            Cause::Limit => 10,
        }
    }

    /// The earlier of two causes in that order.
    #[tactic(auto, unfolding(crate::specs::Causes::earlier_of))]
    pub fn earlier(self, other: Cause) -> Cause
        ensures { result ≡ earlier_of self other }
    {
        if self.rank() <= other.rank() {
            self
        } else {
            other
        }
    }
}
