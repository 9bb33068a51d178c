//! Lines of rows, read and printed: each kind of part, each rest, and the causes of refusals.

use dx_base::Memory;
use line_forms::{
    Cause, Choices, Kind, Line, LineForm, Named, Naming, Part, Rest, SetOf, form_for, put_line,
    read_line,
};
use std::alloc::Global;
use std::test::Fail;
use trace_words::{Name, is_word, words_of_line};

/// A row.
#[derive(Clone, Copy)]
struct Row {
    parts: &'static [Part],
    rest: Rest,
}

impl LineForm for Row {
    ghost use Rattle.std.specs.Prelude.{map};
    ghost use Rattle.line_forms.specs.Parts.{place_of};

    ghost shape = { λ r. record { parts = map place_of r.parts.now; rest = r.rest } };

    fn parts(self) -> &'static [Part] {
        self.parts
    }

    fn rest(self) -> Rest {
        self.rest
    }
}

/// Names: `f` is declared, and is the thing of number 7 of each kind.
struct Things;

impl Naming for Things {
    ghost use Rattle.std.specs.Prelude.{codes, ◌&&◌, nat_le, length, Ok, Err, if◌then◌else◌};
    ghost use Rattle.std.specs.Str.{bytes_eq};
    ghost use Rattle.trace_words.specs.Words.{is_name};
    ghost use Rattle.line_forms.specs.declared.cause.Cause.TheVariants as cause;

    ghost names = { λ t. record {
      number = λ k w. if bytes_eq w (codes "f") then Ok 7 else Err cause.Name;
      fresh = λ w. if bytes_eq w (codes "f") then Err cause.Again
          else (if is_name w && nat_le (length w) 32 then Ok w else Err cause.Limit);
    } };

    fn number(&self, _: Kind, word: &[u8]) -> Result<u32, Cause> {
        if is_word(word, "f") {
            Ok(7)
        } else {
            Err(Cause::Name)
        }
    }

    fn fresh(&self, word: &[u8]) -> Result<Name, Cause> {
        if is_word(word, "f") {
            return Err(Cause::Again);
        }
        Name::new(word).ok_or(Cause::Limit)
    }
}

impl Named for Things {
    ghost use Rattle.std.specs.Prelude.{codes};

    ghost known = { λ t k i. codes "f" };

    fn name(&self, _: Kind, _: u32) -> &[u8] {
        b"f"
    }
}

/// A signal on a queue: names and a number.
fn signal() -> Row {
    Row {
        parts: &[
            Part::Word("signal"),
            Part::Name(Kind::Queue),
            Part::Name(Kind::Fence),
            Part::Number,
        ],
        rest: Rest::Nothing,
    }
}

/// A declaration of a texture: a new name, a literal, a number, and two choices.
fn texture() -> Row {
    Row {
        parts: &[
            Part::Word("texture"),
            Part::NewName,
            Part::Word("enhanced"),
            Part::Choice(Choices::Layout),
            Part::Number,
            Part::Choice(Choices::Shared),
        ],
        rest: Rest::Nothing,
    }
}

/// A barrier: sets, and what may be `all`.
fn barrier() -> Row {
    Row {
        parts: &[
            Part::Word("barrier"),
            Part::Set(SetOf::Sync),
            Part::Set(SetOf::Access),
            Part::AllOr(Kind::Resource),
            Part::AllOrNumber,
        ],
        rest: Rest::Nothing,
    }
}

/// A write: a data word, a flag word, and data words up to the end.
fn write() -> Row {
    Row {
        parts: &[Part::Word("write"), Part::DataWord, Part::FlagWord],
        rest: Rest::Words,
    }
}

/// An execute: names up to the end.
fn execute() -> Row {
    Row {
        parts: &[Part::Word("execute"), Part::Name(Kind::Queue)],
        rest: Rest::Names(Kind::List),
    }
}

/// What is printed of a line.
fn text_of(alloc: Global, row: Row, line: &Line) -> Result<Vec<u8>, Memory> {
    let mut text = Vec::new(alloc);
    put_line(
        &mut text,
        &Things,
        row,
        line.values.as_slice(),
        line.rest.as_slice(),
    )?;
    Ok(text)
}

/// What is printed of the line that the words of a text say by a row, or the cause of its refusal.
fn printed(alloc: Global, row: Row, text: &str) -> Result<Result<Vec<u8>, Cause>, Memory> {
    let mut words = Vec::new(alloc);
    words_of_line(text.as_bytes(), &mut words)?;
    match read_line(alloc, &Things, row, words.as_slice())? {
        Ok(line) => {
            let text = text_of(alloc, row, &line);
            drop(line);
            Ok(Ok(text?))
        }
        Err(cause) => Ok(Err(cause)),
    }
}

/// Lines that are read, with what is printed of them.
fn read_rows() -> [(Row, &'static str, &'static str); 10] {
    [
        (signal(), "signal f f 0", "signal f f 0\n"),
        (
            signal(),
            "signal f f 18446744073709551615",
            "signal f f 18446744073709551615\n",
        ),
        (
            texture(),
            "texture t_2 enhanced COMMON 16 plain",
            "texture t_2 enhanced COMMON 16 plain\n",
        ),
        (
            texture(),
            "texture all enhanced COPY_DEST 0 shared",
            "texture all enhanced COPY_DEST 0 shared\n",
        ),
        (
            barrier(),
            "barrier COPY|ALL COMMON f 3",
            "barrier ALL|COPY COMMON f 3\n",
        ),
        (
            barrier(),
            "barrier NONE COPY_DEST|UNORDERED_ACCESS|COPY_SOURCE all all",
            "barrier NONE UNORDERED_ACCESS|COPY_SOURCE|COPY_DEST all all\n",
        ),
        (write(), "write 0 0 0", "write 00000000 0 00000000\n"),
        (
            write(),
            "write ab 00ab ffffffff 0000001",
            "write 000000ab ab ffffffff 00000001\n",
        ),
        (execute(), "execute f", "execute f\n"),
        (execute(), "execute f f f", "execute f f f\n"),
    ]
}

#[test]
fn what_is_read_is_printed(rt: HostRuntime) -> Result<(), Fail> {
    for row in read_rows() {
        let (row, text, want) = row;
        let found = match printed(rt.alloc(), row, text)? {
            Ok(found) => found.as_slice() == want.as_bytes(),
            Err(_) => false,
        };
        assert!(rt; found, "{text}");
    }
    Ok(())
}

/// Lines that are refused, with the first of their causes.
fn refused_rows() -> [(Row, &'static str, Cause); 26] {
    [
        (signal(), "signals f f 0", Cause::Form),
        (signal(), "signal f f", Cause::Form),
        (signal(), "signal f f 0 0", Cause::Form),
        (signal(), "signal f f 00", Cause::Form),
        (signal(), "signal f f 18446744073709551616", Cause::Number),
        (signal(), "signal g g 18446744073709551616", Cause::Number),
        (signal(), "signal g f 0", Cause::Name),
        (signal(), "signal g f x", Cause::Form),
        (
            texture(),
            "texture f enhanced COMMON 16 plain",
            Cause::Again,
        ),
        (
            texture(),
            "texture F enhanced COMMON 16 plain",
            Cause::Limit,
        ),
        (texture(), "texture t legacy COMMON 16 plain", Cause::Form),
        (texture(), "texture t enhanced common 16 plain", Cause::Form),
        (
            texture(),
            "texture t enhanced COMMON 16 visible",
            Cause::Form,
        ),
        (barrier(), "barrier COPY|COPY COMMON f 3", Cause::Form),
        (barrier(), "barrier COPY| COMMON f 3", Cause::Form),
        (barrier(), "barrier COPY COPY f 3", Cause::Form),
        (barrier(), "barrier COPY COMMON g 3", Cause::Name),
        (barrier(), "barrier COPY COMMON all 03", Cause::Form),
        (barrier(), "barrier COPY COMMON all f", Cause::Form),
        (write(), "write 0 0", Cause::Form),
        (write(), "write 000000000 0 0", Cause::Form),
        (write(), "write 0 A 0", Cause::Form),
        (write(), "write 0 0 g", Cause::Form),
        (write(), "write 0 0 ", Cause::Form),
        (execute(), "execute", Cause::Form),
        (execute(), "execute f g", Cause::Name),
    ]
}

#[test]
fn what_is_not_read_is_refused_with_its_first_cause(rt: HostRuntime) -> Result<(), Fail> {
    for row in refused_rows() {
        let (row, text, want) = row;
        let found = match printed(rt.alloc(), row, text)? {
            Ok(_) => false,
            Err(cause) => cause == want,
        };
        assert!(rt; found, "{text}");
    }
    Ok(())
}

/// Two forms that begin alike: a barrier of a buffer, and one of a name.
fn barriers() -> [Row; 2] {
    let of_a_buffer = Row {
        parts: &[
            Part::Word("barrier"),
            Part::Word("buffer"),
            Part::Name(Kind::Resource),
        ],
        rest: Rest::Nothing,
    };
    let of_a_name = Row {
        parts: &[
            Part::Word("barrier"),
            Part::Name(Kind::Resource),
            Part::Number,
        ],
        rest: Rest::Words,
    };
    [of_a_buffer, of_a_name]
}

/// What stands behind the parts of the form that is found for a text is data words; None where none is found.
fn ends_with_words(alloc: Global, text: &str) -> Result<Option<bool>, Memory> {
    let mut words = Vec::new(alloc);
    words_of_line(text.as_bytes(), &mut words)?;
    match form_for(&barriers(), words.as_slice()) {
        None => Ok(None),
        Some(form) => Ok(Some(form.rest == Rest::Words)),
    }
}

#[test]
fn the_first_form_whose_fixed_words_fit_is_found(rt: HostRuntime) -> Result<(), Fail> {
    let rows = [
        ("barrier buffer f", Some(false)),
        ("barrier buffer f 0", Some(true)),
        ("barrier f 0 1", Some(true)),
        ("barrier buffer 7", Some(false)),
        ("barrier f", None),
        ("barrier", None),
        ("barriers buffer f", None),
    ];
    for row in rows {
        let (text, want) = row;
        assert_eq!(rt; ends_with_words(rt.alloc(), text)?, want, "{text}");
    }
    Ok(())
}
