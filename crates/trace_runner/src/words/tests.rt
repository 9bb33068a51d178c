//! A table of words, and what they say.

use crate::words::{Words, read_words};
use std::alloc::{AllocError, Global};
use std::test::Fail;

/// Words as a program is given them.
fn given(alloc: Global, words: &[&str]) -> Result<Vec<String>, AllocError> {
    let mut given = Vec::new(alloc);
    for word in words {
        given.push(String::from_str(alloc, word)?)?;
    }
    Ok(given)
}

/// What good words say.
fn said(choices: Option<u64>, shown: bool) -> Result<Words, u32> {
    Ok(Words { choices, shown })
}

#[test]
fn words_say_what_their_rows_say(rt: HostRuntime) -> Result<(), Fail> {
    let rows = [
        ([].as_slice(), said(None, false)),
        (["--history"].as_slice(), said(None, true)),
        (["--choices", "0"].as_slice(), said(Some(0), false)),
        (
            ["--choices", "18446744073709551615", "--history"].as_slice(),
            said(Some(18446744073709551615), true),
        ),
        (
            ["--history", "--choices", "7"].as_slice(),
            said(Some(7), true),
        ),
        (["--choices"].as_slice(), Err(2)),
        (["x"].as_slice(), Err(1)),
        (["--choices", "07"].as_slice(), Err(2)),
        (["--choices", "+7"].as_slice(), Err(2)),
        (["--choices", "18446744073709551616"].as_slice(), Err(2)),
        (["--history", "--history"].as_slice(), Err(2)),
        (["--choices", "1", "--choices", "2"].as_slice(), Err(3)),
        (["--choices=5"].as_slice(), Err(1)),
    ];
    for (words, expected) in rows {
        let given = given(rt.alloc(), words)?;
        assert!(rt; read_words(given.as_slice()) == expected, "not so");
    }
    Ok(())
}

#[test]
fn choices_start_from_their_number_or_from_zero(rt: HostRuntime) {
    let none = Words {
        choices: None,
        shown: false,
    };
    assert!(rt; none.number() == 0);
    let seven = Words {
        choices: Some(7),
        shown: false,
    };
    assert!(rt; seven.number() == 7);
}
