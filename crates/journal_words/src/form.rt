//! The forms of lines.

ghost use Rattle.std.specs.Prelude.{◌≡◌, map};
ghost use Rattle.journal_words.specs.Forms.{class_of, first_words, form_of as form_by, same_class};

use trace_words::first_row;

/// A form of lines, by its first word.
#[derive(Clone, Copy, Debug, PartialEq, Eq)]
pub enum Form {
    Header,
    Buffer,
    Image,
    Heap,
    View,
    Queues,
    Submit,
    Pass,
    Bump,
    Command,
    HostWrite,
    HostRead,
    Update,
    Barrier,
    Copy,
    CopyImage,
    CopyIn,
    CopyOut,
    Clear,
    Dispatch,
    End,
}

/// What a line of a form is about.
#[derive(Clone, Copy, Debug, PartialEq, Eq)]
pub enum LineClass {
    /// It is the first.
    Header,
    /// It names objects of the device.
    Plan,
    /// It is a step, or the end.
    Step,
    /// It is a command of the batch that is submitted.
    Command,
}

/// The first words of lines.
const FIRST_WORDS: [(&str, Form); 21] = [
    ("vkjournal", Form::Header),
    ("buffer", Form::Buffer),
    ("image", Form::Image),
    ("heap", Form::Heap),
    ("view", Form::View),
    ("queues", Form::Queues),
    ("submit", Form::Submit),
    ("pass", Form::Pass),
    ("bump", Form::Bump),
    ("command", Form::Command),
    ("hostwrite", Form::HostWrite),
    ("hostread", Form::HostRead),
    ("update", Form::Update),
    ("barrier", Form::Barrier),
    ("copy", Form::Copy),
    ("copyimage", Form::CopyImage),
    ("copyin", Form::CopyIn),
    ("copyout", Form::CopyOut),
    ("clear", Form::Clear),
    ("dispatch", Form::Dispatch),
    ("end", Form::End),
];

impl Form {
    /// What a line of the form is about.
    pub fn class(self) -> LineClass
        ensures { result ≡ class_of self }
    {
        match self {
            Form::Header => LineClass::Header,
            Form::Buffer | Form::Image | Form::Heap | Form::View | Form::Queues => LineClass::Plan,
            Form::Submit
            | Form::Pass
            | Form::Bump
            | Form::Command
            | Form::HostWrite
            | Form::HostRead
            | Form::Update
            | Form::End => LineClass::Step,
            Form::Barrier
            | Form::Copy
            | Form::CopyImage
            | Form::CopyIn
            | Form::CopyOut
            | Form::Clear
            | Form::Dispatch => LineClass::Command,
        }
    }
}

impl LineClass {
    /// Whether it is that one.
    pub fn is_same(self, other: LineClass) -> bool
        ensures { result ≡ same_class self other }
    {
        match (self, other) {
            (LineClass::Header, LineClass::Header)
            | (LineClass::Plan, LineClass::Plan)
            | (LineClass::Step, LineClass::Step)
            | (LineClass::Command, LineClass::Command) => true,
            _ => false,
        }
    }
}

/// The forms by their first words.
fn forms() -> &'static [(&'static str, Form)]
    ensures { map (λ row. (row.0.now, row.1)) result.now ≡ first_words }
{
    &FIRST_WORDS
}

/// The form of a line, by its first word.
#[tactic(auto, unfolding(crate::specs::Forms::form_of))]
pub fn form_of(words: &[&[u8]]) -> Option<Form>
    ensures { result ≡ form_by (map (λ w. w.now) words.now) }
{
    match words {
        [] => None,
        [word, ..] => first_row(forms(), word),
    }
}
