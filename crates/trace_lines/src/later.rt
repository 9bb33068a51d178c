//! Forms of lines that come later.

ghost use Rattle.std.specs.Prelude.{◌≡◌, map};
ghost use Rattle.trace_words.specs.Rows.{is_among};
ghost use Rattle.trace_lines.specs.Later.{later_words, later_versions, later_types, later_homes, has_first, has_second, versioned, typed, placed, is_later};

use trace_words::is_among;

/// First words of forms that come later.
const WORDS: [&str; 21] = [
    "texture",
    "view",
    "heap",
    "signature",
    "copytex",
    "copyin",
    "copyout",
    "setheap",
    "setroot",
    "setconst",
    "settable",
    "setbuffer",
    "clear",
    "dispatch",
    "barrier",
    "transition",
    "uavbarrier",
    "resetalloc",
    "wait",
    "descriptor",
    "copydesc",
];

/// Versions of the text that come later.
const VERSIONS: [&str; 1] = ["2"];

/// Types of queues, allocators and lists that come later.
const TYPES: [&str; 2] = ["compute", "copy"];

/// Places of buffers that come later.
const HOMES: [&str; 2] = ["legacy", "enhanced"];

/// First words behind which the version, the type or the place tells that the form comes later.
const VERSIONED: [&str; 1] = ["d3dtrace"];

const TYPED: [&str; 3] = ["queue", "allocator", "list"];

const PLACED: [&str; 1] = ["buffer"];

/// The word is the first word of a form that comes later.
fn is_later_word(word: &[u8]) -> bool
    ensures { result ≡ is_among later_words word.now }
{
    is_among(&WORDS, word)
}

/// The word is a version that comes later.
fn is_later_version(word: &[u8]) -> bool
    ensures { result ≡ is_among later_versions word.now }
{
    is_among(&VERSIONS, word)
}

/// The word is a type that comes later.
fn is_later_type(word: &[u8]) -> bool
    ensures { result ≡ is_among later_types word.now }
{
    is_among(&TYPES, word)
}

/// The word is a place of buffers that comes later.
fn is_later_home(word: &[u8]) -> bool
    ensures { result ≡ is_among later_homes word.now }
{
    is_among(&HOMES, word)
}

/// The first word is a version that comes later.
fn has_later_version(words: &[&[u8]]) -> bool
    ensures { result ≡ has_first later_versions (map (λ word. word.now) words.now) }
{
    match words {
        [version, ..] => is_later_version(version),
        [] => false,
    }
}

/// The second word is a type that comes later.
fn has_later_type(words: &[&[u8]]) -> bool
    ensures { result ≡ has_second later_types (map (λ word. word.now) words.now) }
{
    match words {
        [_, kind, ..] => is_later_type(kind),
        _ => false,
    }
}

/// The second word is a place of buffers that comes later.
fn has_later_home(words: &[&[u8]]) -> bool
    ensures { result ≡ has_second later_homes (map (λ word. word.now) words.now) }
{
    match words {
        [_, home, ..] => is_later_home(home),
        _ => false,
    }
}

/// The word is the first of a line whose version tells that it comes later.
fn is_versioned(word: &[u8]) -> bool
    ensures { result ≡ is_among versioned word.now }
{
    is_among(&VERSIONED, word)
}

/// The word is the first of a line whose type tells that it comes later.
fn is_typed(word: &[u8]) -> bool
    ensures { result ≡ is_among typed word.now }
{
    is_among(&TYPED, word)
}

/// The word is the first of a line whose place tells that it comes later.
fn is_placed(word: &[u8]) -> bool
    ensures { result ≡ is_among placed word.now }
{
    is_among(&PLACED, word)
}

/// The words of a line tell that it is of a form that comes later, whatever stands behind the word that tells.
#[tactic(auto, unfolding(crate::specs::Later::is_later))]
pub fn is_later(words: &[&[u8]]) -> bool
    ensures { result ≡ is_later (map (λ word. word.now) words.now) }
{
    let [first, rest @ ..] = words else {
        return false;
    };
    is_later_word(first)
        || ((is_versioned(first) && has_later_version(rest))
            || ((is_typed(first) && has_later_type(rest))
                || (is_placed(first) && has_later_home(rest))))
}
