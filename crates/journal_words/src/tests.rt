//! The words of lines: which are read, and which cause each of the others has.

use crate::line_words::LineWords;
use line_forms::Cause;
use std::test::Fail;

/// A word that is read as a kind of part, and the cause against it, if there is one.
type Row = (&'static str, Option<Cause>);

const NUMBERS: [Row; 7] = [
    ("0", None),
    ("4294967295", None),
    ("4294967296", Some(Cause::Number)),
    ("18446744073709551616", Some(Cause::Number)),
    ("01", Some(Cause::Form)),
    ("", Some(Cause::Form)),
    ("-1", Some(Cause::Form)),
];

const STAGES: [Row; 6] = [
    ("-", None),
    ("HOST|COPY", None),
    ("HOST|HOST", Some(Cause::Form)),
    ("COPY|-", Some(Cause::Form)),
    ("ALL", Some(Cause::Form)),
    ("COPY|", Some(Cause::Form)),
];

const REGISTERS: [Row; 11] = [
    ("-", None),
    ("c:ffffffff", None),
    ("c:123456789", Some(Cause::Form)),
    ("b:0:4294967295", None),
    ("b:0:4294967296", Some(Cause::Number)),
    ("b:0", Some(Cause::Form)),
    ("v:7", None),
    ("v:7:8", Some(Cause::Form)),
    ("s:1:2", None),
    ("s:1:2:3", Some(Cause::Form)),
    ("d:1", Some(Cause::Form)),
];

const COUNTS: [Row; 5] = [
    ("64", None),
    ("b:0:1:2", None),
    ("b:0:1:4294967296", Some(Cause::Number)),
    ("b:0:1", Some(Cause::Form)),
    ("v:0:1:2", Some(Cause::Form)),
];

/// The cause against a line of one word, which was read.
fn cause_of(line: &LineWords) -> Option<Cause> {
    line.finished(()).err()
}

#[test]
fn a_number_has_32_bits(rt: HostRuntime) {
    for (word, cause) in NUMBERS {
        let words = [word.as_bytes()];
        let mut line = LineWords::new(&words);
        let _number = line.number();
        assert_eq!(rt; cause_of(&line), cause, "{word}");
    }
}

#[test]
fn a_set_has_each_name_once(rt: HostRuntime) {
    for (word, cause) in STAGES {
        let words = [word.as_bytes()];
        let mut line = LineWords::new(&words);
        let _stages = line.stages();
        assert_eq!(rt; cause_of(&line), cause, "{word}");
    }
}

#[test]
fn a_register_has_its_fields(rt: HostRuntime) {
    for (word, cause) in REGISTERS {
        let words = [word.as_bytes()];
        let mut line = LineWords::new(&words);
        let _register = line.register();
        assert_eq!(rt; cause_of(&line), cause, "{word}");
    }
}

#[test]
fn a_count_has_its_fields(rt: HostRuntime) {
    for (word, cause) in COUNTS {
        let words = [word.as_bytes()];
        let mut line = LineWords::new(&words);
        let _count = line.count();
        assert_eq!(rt; cause_of(&line), cause, "{word}");
    }
}
