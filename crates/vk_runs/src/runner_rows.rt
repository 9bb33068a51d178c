//! Whole runs of the program that checks a journal: words, bytes and faults in; the answer, the bytes of the output and the exit
//! status out.

use dx_base::Memory;
use journal_runner::{ToolFault, exit_code, journal_main, refuse_memory};
use journal_text::Cause;
use std::alloc::{AllocError, Global};
use std::process::Abort;
use std::test::Fail;
use text_io::{BytesSink, BytesSource};
use vk_journal_check::StepCheck;
use vk_sync_rules::VkRule;

/// What the program answers.
type Answer = Result<StepCheck, ToolFault>;

/// What a run is given: its words, the parts of its text, the calls of the source and of the sink that fail, counted from 1, and
/// the room of the sink.
#[derive(Clone, Copy)]
struct Given {
    words: &'static [&'static str],
    texts: [&'static str; 3],
    fails: [u64; 2],
    room: usize,
}

/// What a run answers, its output and its exit status.
type Came = (Answer, &'static str, u8);

/// Two buffers of four words, a queue, and a batch without commands for which the next one waits.
const BEGINNING: &str = "vkjournal 1
buffer 4 upload
buffer 4 readback
queues 1 timelines 2
submit 0 0 0 waits sets 1:1
pass 0 0
";

/// The first batch ends; the next one copies the words of the first buffer into the second.
const COPY: &str = "bump 0 0
submit 0 1 1 waits 1:1 sets 0:1
copy 1 0 0 0 4
pass 0 1
command 0 1 1
bump 0 1
";

/// The same, with a barrier to the host behind the copy.
const COPY_TO_HOST: &str = "bump 0 0
submit 0 1 2 waits 1:1 sets 0:1
copy 1 0 0 0 4
barrier ALL_COMMANDS MEMORY_WRITE HOST HOST_READ
pass 0 1
command 0 1 1
command 0 1 2
bump 0 1
";

/// The batch that waits passes before the first one ends.
const TOO_EARLY: &str = "submit 0 1 0 waits 1:1 sets 0:1
pass 0 1
";

const READ: &str = "hostread 1 0 00000000 00000000 00000000 00000000\nend\n";

/// The last word is another number than the one that stands there.
const OTHER_READ: &str = "hostread 1 0 00000000 00000000 00000000 00000001\nend\n";

/// A clean journal.
const CLEAN: [&str; 3] = [BEGINNING, COPY_TO_HOST, READ];

/// Room for each line.
const ROOM: usize = 64;

/// Texts, and what comes of them.
const TEXTS: [([&str; 3], Came); 9] = [
    (
        [BEGINNING, COPY_TO_HOST, READ],
        (Ok(StepCheck::Clean), "clean\n", 0),
    ),
    (
        [BEGINNING, COPY, READ],
        (Ok(StepCheck::Broken(VkRule::V10, 8)), "broken V10 8\n", 6),
    ),
    (
        [BEGINNING, TOO_EARLY, READ],
        (Ok(StepCheck::Impossible(4)), "impossible 4\n", 1),
    ),
    (
        [BEGINNING, COPY_TO_HOST, OTHER_READ],
        (Ok(StepCheck::Impossible(9)), "impossible 9\n", 1),
    ),
    (
        [BEGINNING, "submit 0 2 0 waits sets\n", "end\n"],
        (Ok(StepCheck::Broken(VkRule::V9, 3)), "broken V9 3\n", 6),
    ),
    (
        ["", "", ""],
        (
            Err(ToolFault::Refused(1, Cause::Cut)),
            "refused line 1 cut\n",
            3,
        ),
    ),
    (
        [BEGINNING, "bump 0\n", "end\n"],
        (
            Err(ToolFault::Refused(7, Cause::Form)),
            "refused line 7 form\n",
            3,
        ),
    ),
    (
        [BEGINNING, READ, "\n"],
        (
            Err(ToolFault::Refused(9, Cause::After)),
            "refused line 9 after\n",
            3,
        ),
    ),
    (
        [BEGINNING, "hostread 2 0\n", "end\n"],
        (
            Err(ToolFault::Refused(7, Cause::Name)),
            "refused line 7 name\n",
            3,
        ),
    ),
];

/// The calls of the source and of the sink that fail, and the room of the sink, where the journal is clean; what comes of that.
const FAULTS: [([u64; 2], usize, Came); 5] = [
    ([1, 0], ROOM, (Err(ToolFault::ReadFault), "read fault\n", 4)),
    ([2, 0], ROOM, (Err(ToolFault::ReadFault), "read fault\n", 4)),
    ([3, 0], ROOM, (Ok(StepCheck::Clean), "clean\n", 0)),
    ([0, 1], ROOM, (Err(ToolFault::WriteFault), "", 5)),
    ([0, 0], 3, (Err(ToolFault::WriteFault), "cle", 5)),
];

/// Words that the program does not take.
const WORDS: [&[&str]; 4] = [&[""], &["clean"], &["run", "cached"], &["run", "line"]];

/// The bytes of texts, one behind the other.
fn joined(alloc: Global, texts: [&str; 3]) -> Result<Vec<u8>, Memory> {
    let mut bytes = Vec::new(alloc);
    for text in texts {
        bytes.extend_from_slice(text.as_bytes())?;
    }
    Ok(bytes)
}

/// Words as a program is given them.
fn words_of(alloc: Global, words: &[&str]) -> Result<Vec<String>, AllocError> {
    let mut given = Vec::new(alloc);
    for word in words {
        given.push(String::from_str(alloc, word)?)?;
    }
    Ok(given)
}

/// What a run answers, and what it wrote.
fn run_of(alloc: Global, given: Given) -> Result<(Answer, BytesSink), Fail> {
    let [of_source, of_sink] = given.fails;
    let words = words_of(alloc, given.words)?;
    let mut source = BytesSource::new(joined(alloc, given.texts)?, [of_source].to_vec(alloc)?);
    let mut sink = BytesSink::new(alloc, given.room, [of_sink].to_vec(alloc)?)?;
    let answer = journal_main(alloc, words.as_slice(), &mut source, &mut sink);
    Ok((answer, sink))
}

/// What came of a run is what is said.
fn came(rt: &impl Abort, alloc: Global, given: Given, expected: Came) -> Result<(), Fail> {
    let (answer, output, code) = expected;
    let (got, sink) = run_of(alloc, given)?;
    assert!(rt; got == answer, "the answer that prints {output}");
    assert!(rt; sink.held() == output.as_bytes(), "the output {output}");
    assert!(rt; exit_code(&got) == code, "the exit status of {output}");
    drop(sink);
    Ok(())
}

#[test]
fn a_text_is_told_by_its_row(rt: HostRuntime) -> Result<(), Fail> {
    for (texts, expected) in TEXTS {
        let given = Given {
            words: &[],
            texts,
            fails: [0, 0],
            room: ROOM,
        };
        came(&rt, rt.alloc(), given, expected)?;
    }
    Ok(())
}

#[test]
fn a_fault_ends_a_run_as_its_row_says(rt: HostRuntime) -> Result<(), Fail> {
    for (fails, room, expected) in FAULTS {
        let given = Given {
            words: &[],
            texts: CLEAN,
            fails,
            room,
        };
        came(&rt, rt.alloc(), given, expected)?;
    }
    Ok(())
}

#[test]
fn words_are_refused_before_anything_is_read(rt: HostRuntime) -> Result<(), Fail> {
    for words in WORDS {
        let given = Given {
            words,
            texts: CLEAN,
            fails: [1, 0],
            room: ROOM,
        };
        came(
            &rt,
            rt.alloc(),
            given,
            (Err(ToolFault::Usage), "usage\n", 2),
        )?;
    }
    Ok(())
}

#[test]
fn a_run_that_has_no_memory_for_its_words_says_so(rt: HostRuntime) -> Result<(), Fail> {
    let mut sink = BytesSink::new(rt.alloc(), ROOM, Vec::new(rt.alloc()))?;
    let answer = refuse_memory(&mut sink);
    assert!(rt; answer == Err(ToolFault::Memory));
    assert!(rt; sink.held() == b"out of memory 8007000e\n".as_slice());
    Ok(())
}
