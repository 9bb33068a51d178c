//! The forms of lines.

ghost use Rattle.std.specs.Prelude.{◌≡◌, map};
ghost use Rattle.line_forms.specs.Finding.{form_for, beginning_with};
ghost use Rattle.line_forms.specs.Parts.{place_of};
ghost use Rattle.trace_lines.specs.Forms.{forms, form_row, class_of};

use line_forms::{Choices, Kind, LineForm, Part, Rest, first_byte, form_for};

/// A form of lines.
#[derive(Clone, Copy, Debug, PartialEq, Eq)]
pub enum Form {
    Header,
    Queue,
    Fence,
    Buffer,
    Allocator,
    List,
    Thread,
    Write,
    Reset,
    Copy,
    Close,
    Execute,
    Signal,
    HostSignal,
    HostWait,
    Value,
    Read,
    End,
}

/// What a line does in a trace.
#[derive(Clone, Copy, Debug, PartialEq, Eq)]
pub enum Class {
    /// It is the first line.
    Header,
    /// It declares a queue.
    Queue,
    /// It declares another object.
    Declaration,
    /// It declares a thread.
    Thread,
    /// It calls.
    Call,
    /// It is the last line.
    End,
}

const QUEUE: Part = Part::Name(Kind::Queue);

const FENCE: Part = Part::Name(Kind::Fence);

const RESOURCE: Part = Part::Name(Kind::Resource);

const ALLOCATOR: Part = Part::Name(Kind::Allocator);

const LIST: Part = Part::Name(Kind::List);

const NEW: Part = Part::NewName;

const NUMBER: Part = Part::Number;

const TYPE: Part = Part::Choice(Choices::Type);

const HOME: Part = Part::Choice(Choices::Home);

/// The forms of which a line may begin with that byte, in the order in which they are tried.
fn beginning_with(byte: u8) -> &'static [Form]
    ensures { result.now ≡ beginning_with form_row forms byte }
{
    match byte {
        b'a' => &[Form::Allocator],
        b'b' => &[Form::Buffer],
        b'c' => &[Form::Copy, Form::Close],
        b'd' => &[Form::Header],
        b'e' => &[Form::Execute, Form::End],
        b'f' => &[Form::Fence],
        b'h' => &[Form::HostSignal, Form::HostWait],
        b'l' => &[Form::List],
        b'q' => &[Form::Queue],
        b'r' => &[Form::Reset, Form::Read],
        b's' => &[Form::Signal],
        b't' => &[Form::Thread],
        b'v' => &[Form::Value],
        b'w' => &[Form::Write],
        _ => &[],
    }
}

/// The first form that the words of a line fit. Only the forms that begin as the line does are tried.
pub fn form_of(words: &[&[u8]]) -> Option<Form>
    ensures { result ≡ form_for form_row forms (map (λ word. word.now) words.now) }
{
    form_for(beginning_with(first_byte(words)), words)
}

impl LineForm for Form {
    ghost use Rattle.trace_lines.specs.Forms.{form_row};

    ghost shape = { form_row };

    fn parts(self) -> &'static [Part] {
        match self {
            Form::Header => &[Part::Word("d3dtrace"), Part::Word("1")],
            Form::Queue => &[Part::Word("queue"), NEW, TYPE],
            Form::Fence => &[Part::Word("fence"), NEW, NUMBER],
            Form::Buffer => &[Part::Word("buffer"), NEW, HOME, NUMBER],
            Form::Allocator => &[Part::Word("allocator"), NEW, TYPE],
            Form::List => &[Part::Word("list"), NEW, TYPE],
            Form::Thread => &[Part::Word("thread"), NEW],
            Form::Write => &[Part::Word("write"), RESOURCE, NUMBER],
            Form::Reset => &[Part::Word("reset"), LIST, ALLOCATOR],
            Form::Copy => &[
                Part::Word("copy"),
                LIST,
                RESOURCE,
                NUMBER,
                RESOURCE,
                NUMBER,
                NUMBER,
            ],
            Form::Close => &[Part::Word("close"), LIST],
            Form::Execute => &[Part::Word("execute"), QUEUE],
            Form::Signal => &[Part::Word("signal"), QUEUE, FENCE, NUMBER],
            Form::HostSignal => &[Part::Word("hostsignal"), FENCE, NUMBER],
            Form::HostWait => &[Part::Word("hostwait"), FENCE, NUMBER],
            Form::Value => &[Part::Word("value"), FENCE],
            Form::Read => &[Part::Word("read"), RESOURCE, NUMBER, NUMBER],
            Form::End => &[Part::Word("end")],
        }
    }

    fn rest(self) -> Rest {
        match self {
            Form::Write => Rest::Words,
            Form::Execute => Rest::Names(Kind::List),
            Form::Header
            | Form::Queue
            | Form::Fence
            | Form::Buffer
            | Form::Allocator
            | Form::List
            | Form::Thread
            | Form::Reset
            | Form::Copy
            | Form::Close
            | Form::Signal
            | Form::HostSignal
            | Form::HostWait
            | Form::Value
            | Form::Read
            | Form::End => Rest::Nothing,
        }
    }
}

impl Form {
    /// What a line of the form does in a trace.
    pub fn class(self) -> Class
        ensures { result ≡ class_of self }
    {
        match self {
            Form::Header => Class::Header,
            Form::Queue => Class::Queue,
            Form::Fence | Form::Buffer | Form::Allocator | Form::List => Class::Declaration,
            Form::Thread => Class::Thread,
            Form::Write
            | Form::Reset
            | Form::Copy
            | Form::Close
            | Form::Execute
            | Form::Signal
            | Form::HostSignal
            | Form::HostWait
            | Form::Value
            | Form::Read => Class::Call,
            Form::End => Class::End,
        }
    }
}
