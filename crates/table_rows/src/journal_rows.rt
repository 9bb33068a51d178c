//! Journals as text: lines of each form, read and printed, and lines that are refused.

use dx_base::Seq;
use journal_text::{Cause, JournalFault, print_steps, read_steps};
use std::alloc::Global;
use std::process::Abort;
use std::test::Fail;
use vk_types::{DevicePlan, VkStep};

/// What is read of a text and printed again.
fn printed(alloc: Global, text: &str) -> Result<Vec<u8>, JournalFault> {
    let (plan, steps) = read_steps(alloc, text.as_bytes())?;
    let out = print_steps(alloc, &plan, steps.as_slice());
    drop(plan);
    drop(steps);
    Ok(out?)
}

/// Why a text is refused.
fn fault_of(alloc: Global, text: &str) -> Option<JournalFault> {
    match read_steps(alloc, text.as_bytes()) {
        Ok((plan, steps)) => {
            drop(plan);
            drop(steps);
            None
        }
        Err(fault) => Some(fault),
    }
}

/// Lines of each form.
const ALL_FORMS: &str = "vkjournal 1
buffer 4 upload
buffer 4 readback
buffer 8 legacy
buffer 4294967295 enhanced
image 2 1 1 2
image 65536 65535 1 1
heap 4
heap 0
view cbv buffer 0 0 4
view srv buffer 1 4294967295 0
view uav image 0 1
queues 2 timelines 3
submit 0 0 0 waits sets
submit 0 1 12 waits 0:1 2:18446744073709551615 sets 1:2
barrier ALL_COMMANDS MEMORY_WRITE HOST HOST_READ
barrier - - ALL_COMMANDS|COMPUTE_SHADER|COPY|HOST MEMORY_READ|MEMORY_WRITE|SHADER_STORAGE_READ|SHADER_STORAGE_WRITE|SHADER_READ|UNIFORM_READ|TRANSFER_READ|TRANSFER_WRITE|HOST_READ
barrier COPY TRANSFER_WRITE COPY - 0 all UNDEFINED GENERAL
barrier COPY TRANSFER_WRITE COPY - 0 7 TRANSFER_SRC_OPTIMAL TRANSFER_DST_OPTIMAL
copy 1 0 0 0 4
copyimage 0 1 TRANSFER_DST_OPTIMAL 0 0 TRANSFER_SRC_OPTIMAL
copyin 0 0 GENERAL 1 0 4294967295
copyout 1 0 64 0 0 SHADER_READ_ONLY_OPTIMAL
clear v:2 0000002a
clear s:0:3 ffffffff
dispatch fill 64 - - b:0:4 c:00000007
dispatch histogram b:3:4294967295:1048576 v:0 s:0:0 b:1:0 -
pass 0 18446744073709551615
bump 1 0
command 0 1 1
command 0 1 4294967295 0 3 2 1
hostwrite 0 0 00000001 0000000a
hostwrite 0 4
hostread 1 3 deadbeef
update 0 3
end
";

#[test]
fn what_is_read_is_printed(rt: HostRuntime) -> Result<(), Fail> {
    match printed(rt.alloc(), ALL_FORMS) {
        Ok(out) => {
            assert!(rt;
                out.as_slice() == ALL_FORMS.as_bytes(),
                "{}",
                String::from_utf8_lossy(rt.alloc(), &out)?
            );
        }
        Err(fault) => {
            assert!(rt; false, "{fault:?}");
        }
    }
    Ok(())
}

/// A text that is refused: its first bad line, counted from 1, and the first of that line's causes.
type Refusal = (&'static str, u64, Cause);

/// Lines that may not stand where they do, and lines without an end.
const ENDS: [Refusal; 11] = [
    ("", 1, Cause::Cut),
    ("vkjournal 1", 1, Cause::Cut),
    ("vkjournal 1\n", 2, Cause::Cut),
    ("vkjournal 1\nqueues 1 timelines 1\nend", 3, Cause::Cut),
    (
        "vkjournal 1\nqueues 1 timelines 1\nend\n\n",
        4,
        Cause::After,
    ),
    ("vkjournal 1\nqueues 1 timelines 1\nend\nx", 4, Cause::Cut),
    (
        "vkjournal 1\nqueues 1 timelines 1\nend\nx\n",
        4,
        Cause::After,
    ),
    ("vkjournal 1\n\t\n", 2, Cause::Line),
    ("vkjournal 1\n\x7f", 2, Cause::Line),
    (
        "vkjournal 1\nqueues 1 timelines 1\nend\n\t\n",
        4,
        Cause::Line,
    ),
    ("\n", 1, Cause::Form),
];

/// Lines of no form, and lines that are not due.
const FORMS: [Refusal; 12] = [
    ("vkjournal 2\n", 1, Cause::Form),
    ("# a comment\n", 1, Cause::Form),
    ("buffer 4 upload\n", 1, Cause::Form),
    ("vkjournal 1\nvkjournal 1\n", 2, Cause::Form),
    ("vkjournal 1\nend\n", 2, Cause::Form),
    (
        "vkjournal 1\nqueues 1 timelines 1\nbuffer 4 upload\n",
        3,
        Cause::Form,
    ),
    (
        "vkjournal 1\nqueues 1 timelines 1\ncopy 0 0 0 0 4\n",
        3,
        Cause::Form,
    ),
    (
        "vkjournal 1\nqueues 1 timelines 1\nsubmit 0 0 1 waits sets\npass 0 0\n",
        4,
        Cause::Form,
    ),
    (
        "vkjournal 1\nqueues 1 timelines 1\npass 0\n",
        3,
        Cause::Form,
    ),
    (
        "vkjournal 1\nqueues 1 timelines 1\npass 0 0 0\n",
        3,
        Cause::Form,
    ),
    (
        "vkjournal 1\nqueues 1 timelines 1\npass  0 0\n",
        3,
        Cause::Form,
    ),
    (
        "vkjournal 1\nqueues 1 timelines 1\nsubmit 0 0 0 sets waits\n",
        3,
        Cause::Form,
    ),
];

/// Numbers that are too large, of which one is told behind words of no form and before names.
const NUMBERS: [Refusal; 7] = [
    ("vkjournal 1\nbuffer 4294967296 upload\n", 2, Cause::Number),
    ("vkjournal 1\nbuffer 4294967296 nowhere\n", 2, Cause::Form),
    ("vkjournal 1\nimage 65536 65536 1 1\n", 2, Cause::Number),
    (
        "vkjournal 1\nview cbv buffer 0 4294967295 1\n",
        2,
        Cause::Number,
    ),
    (
        "vkjournal 1\nqueues 1 timelines 1\npass 7 18446744073709551616\n",
        3,
        Cause::Number,
    ),
    (
        "vkjournal 1\nqueues 1 timelines 1\nsubmit 0 0 0 waits 0:18446744073709551616 sets\n",
        3,
        Cause::Number,
    ),
    (
        "vkjournal 1\nqueues 1 timelines 1\ncommand 0 0 4294967296\n",
        3,
        Cause::Number,
    ),
];

/// Objects that are not there.
const NAMES: [Refusal; 9] = [
    ("vkjournal 1\nview cbv buffer 0 0 4\n", 2, Cause::Name),
    (
        "vkjournal 1\nimage 4 4 2 1\nview srv image 0 2\n",
        3,
        Cause::Name,
    ),
    (
        "vkjournal 1\nqueues 1 timelines 1\nsubmit 1 0 0 waits sets\n",
        3,
        Cause::Name,
    ),
    (
        "vkjournal 1\nqueues 1 timelines 1\nsubmit 0 0 0 waits 1:1 sets\n",
        3,
        Cause::Name,
    ),
    (
        "vkjournal 1\nqueues 1 timelines 1\nsubmit 0 0 0 waits sets 1:1\n",
        3,
        Cause::Name,
    ),
    (
        "vkjournal 1\nbuffer 4 upload\nqueues 1 timelines 1\nsubmit 0 0 1 waits sets\ncopy 0 0 1 0 4\n",
        5,
        Cause::Name,
    ),
    (
        "vkjournal 1\nqueues 1 timelines 1\ncommand 0 0 1 1\n",
        3,
        Cause::Name,
    ),
    (
        "vkjournal 1\nheap 4\nqueues 1 timelines 1\nupdate 0 4\n",
        4,
        Cause::Name,
    ),
    (
        "vkjournal 1\nqueues 1 timelines 1\nhostread 0 0\n",
        3,
        Cause::Name,
    ),
];

/// Each text is refused as its row says.
fn are_refused(rt: &impl Abort, alloc: Global, rows: &[Refusal]) {
    for row in rows {
        let (text, line, cause) = *row;
        let fault = fault_of(alloc, text);
        assert_eq!(rt; fault, Some(JournalFault::Refused(line, cause)), "{text}");
    }
}

#[test]
fn a_text_without_an_end_is_refused(rt: HostRuntime) {
    are_refused(&rt, rt.alloc(), &ENDS);
}

#[test]
fn a_line_of_no_form_is_refused(rt: HostRuntime) {
    are_refused(&rt, rt.alloc(), &FORMS);
}

#[test]
fn a_number_that_is_too_large_is_refused(rt: HostRuntime) {
    are_refused(&rt, rt.alloc(), &NUMBERS);
}

#[test]
fn an_object_that_is_not_there_is_refused(rt: HostRuntime) {
    are_refused(&rt, rt.alloc(), &NAMES);
}
