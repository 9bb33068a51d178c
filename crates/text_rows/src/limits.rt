//! Texts at the limits of a trace, and one past them.

use super::traces::refusal;
use std::alloc::{AllocError, Global};
use std::test::Fail;
use trace_text::Cause;

/// A text: what stands before a part, the part, how often it stands there, and what stands behind.
type Parts = (&'static str, &'static str, usize, &'static str);

/// Appends a part so many times.
fn push_times(text: &mut String, part: &str, times: usize) -> Result<(), AllocError> {
    for _ in 0..times {
        text.push_str(part)?;
    }
    Ok(())
}

/// The text of those parts.
fn repeated(alloc: Global, parts: Parts) -> Result<String, AllocError> {
    let (before, part, times, behind) = parts;
    let mut text = String::new(alloc);
    text.push_str(before)?;
    push_times(&mut text, part, times)?;
    text.push_str(behind)?;
    Ok(text)
}

/// Texts, and the line and the cause of those that are refused.
fn rows() -> [(Parts, Option<(u64, Cause)>); 12] {
    let (line, end) = ("d3dtrace 1\n#", "\nend\n");
    let (fence, zero) = ("d3dtrace 1\nfence ", " 0\nend\n");
    let write = "d3dtrace 1\nbuffer u upload 16\nthread t\nwrite u 0";
    let calls = "d3dtrace 1\nfence f 0\nthread t\n";
    let words = "d3dtrace 1\nbuffer z upload 0\nbuffer a upload 1048576\nbuffer b upload 1048576\n\
buffer c readback 1048576\nbuffer d upload 1048572\n";
    [
        ((fence, "f", 32, zero), None),
        ((fence, "f", 33, zero), Some((2, Cause::Limit))),
        ((write, " ffffffff", 256, end), None),
        ((write, " 0", 257, end), Some((4, Cause::Form))),
        ((write, " 000000001", 1, end), Some((4, Cause::Form))),
        ((write, " 0", 0, end), Some((4, Cause::Form))),
        ((line, " ", 4095, end), None),
        ((line, " ", 4096, end), Some((2, Cause::Line))),
        ((calls, "value f\n", 65_536, "end\n"), None),
        (
            (calls, "value f\n", 65_537, "end\n"),
            Some((65_540, Cause::Limit)),
        ),
        ((words, "buffer e readback 4\n", 1, "end\n"), None),
        (
            (words, "buffer e readback 8\n", 1, "end\n"),
            Some((7, Cause::Limit)),
        ),
    ]
}

#[test]
fn parts_of_a_trace_are_read_up_to_their_limits(rt: HostRuntime) -> Result<(), Fail> {
    for (parts, want) in rows() {
        let text = repeated(rt.alloc(), parts)?;
        assert_eq!(rt; refusal(rt.alloc(), text.as_str())?, want);
    }
    Ok(())
}

/// A text that declares so many objects of a kind: a line is what stands before its number, and behind it. The last
/// lines stand behind these.
fn declaring(
    alloc: Global,
    line: (&str, &str),
    count: usize,
    last: &str,
) -> Result<String, AllocError> {
    let (before, behind) = line;
    let mut text = String::new(alloc);
    text.push_str("d3dtrace 1\n")?;
    for object in 0..count {
        text.push_str(format!(in alloc; "{before}{object}{behind}\n")?.as_str())?;
    }
    text.push_str(last)?;
    Ok(text)
}

#[test]
fn a_trace_has_so_many_objects_of_a_kind_and_no_more(rt: HostRuntime) -> Result<(), Fail> {
    let alloc = rt.alloc();
    let kinds = [
        (("fence f", " 0"), 256),
        (("buffer b", " upload 4"), 4096),
        (("buffer b", " readback 0"), 4096),
        (("allocator a", " direct"), 1024),
        (("list l", " direct"), 1024),
    ];
    for (line, most) in kinds {
        let text = declaring(alloc, line, most, "end\n")?;
        assert_eq!(rt; refusal(alloc, text.as_str())?, None, "{}", line.0);
        let text = declaring(alloc, line, most + 1, "end\n")?;
        let behind = most as u64 + 2;
        assert_eq!(rt;
            refusal(alloc, text.as_str())?,
            Some((behind, Cause::Limit)),
            "{}",
            line.0
        );
    }
    Ok(())
}

#[test]
fn a_bad_name_is_told_before_a_limit(rt: HostRuntime) -> Result<(), Fail> {
    let alloc = rt.alloc();
    let calls = "d3dtrace 1\nfence f 0\nthread t\n";
    let text = repeated(alloc, (calls, "value f\n", 65_536, "value x\nend\n"))?;
    assert_eq!(rt; refusal(alloc, text.as_str())?, Some((65_540, Cause::Name)));
    let text = declaring(alloc, ("fence f", " 0"), 256, "fence f0 0\nend\n")?;
    assert_eq!(rt; refusal(alloc, text.as_str())?, Some((258, Cause::Again)));
    Ok(())
}

/// A text whose three calls of execute name so many lists.
fn executing(alloc: Global, counts: [usize; 3]) -> Result<String, AllocError> {
    let mut text = String::new(alloc);
    text.push_str("d3dtrace 1\nqueue q direct\nlist l direct\nthread t\n")?;
    for count in counts {
        text.push_str("execute q")?;
        push_times(&mut text, " l", count)?;
        text.push_str("\n")?;
    }
    text.push_str("end\n")?;
    Ok(text)
}

#[test]
fn calls_of_execute_name_4096_lists_at_most(rt: HostRuntime) -> Result<(), Fail> {
    let alloc = rt.alloc();
    let most = executing(alloc, [2000, 2000, 96])?;
    assert_eq!(rt; refusal(alloc, most.as_str())?, None);
    let more = executing(alloc, [2000, 2000, 97])?;
    assert_eq!(rt; refusal(alloc, more.as_str())?, Some((7, Cause::Limit)));
    Ok(())
}

/// A text of 4,095 lines of 4,096 bytes, and of a line of so many bytes before its last.
fn long_text(alloc: Global, bytes: usize) -> Result<String, AllocError> {
    let mut line = String::new(alloc);
    push_times(&mut line, "#", 4095)?;
    line.push_str("\n")?;
    let mut text = String::new(alloc);
    text.push_str("d3dtrace 1\n")?;
    push_times(&mut text, line.as_str(), 4095)?;
    push_times(&mut text, "#", bytes)?;
    text.push_str("\nend\n")?;
    Ok(text)
}

#[test]
fn a_trace_has_16777216_bytes_at_most(rt: HostRuntime) -> Result<(), Fail> {
    let alloc = rt.alloc();
    let most = long_text(alloc, 4080)?;
    assert_eq!(rt; most.as_bytes().len(), 16_777_216);
    assert_eq!(rt; refusal(alloc, most.as_str())?, None);
    let more = long_text(alloc, 4081)?;
    assert_eq!(rt; refusal(alloc, more.as_str())?, Some((4098, Cause::Size)));
    Ok(())
}
