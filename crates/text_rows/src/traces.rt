//! Texts of traces: each is read, or refused at its first bad line with the first cause.

use d3d_machine::Resource;
use dx_base::{Home, Memory};
use std::alloc::Global;
use std::test::Fail;
use trace_text::{Cause, TraceFault, read_trace, world};

/// The line and the cause of a refusal; None where the text is read.
pub fn refusal(alloc: Global, text: &str) -> Result<Option<(u64, Cause)>, Memory> {
    match read_trace(alloc, text.as_bytes()) {
        Ok(_) => Ok(None),
        Err(TraceFault::Refused(line, cause)) => Ok(Some((line, cause))),
        Err(TraceFault::Memory) => Err(Memory),
    }
}

/// Texts that are refused before their lines have a form, with the line and the cause.
fn refused_lines() -> [(&'static str, u64, Cause); 20] {
    [
        ("", 1, Cause::Cut),
        ("d3dtrace 1\n", 2, Cause::Cut),
        ("d3dtrace 1\nqueue q dir", 2, Cause::Cut),
        ("d3dtrace 1\nend", 2, Cause::Cut),
        ("d3dtrace 1\nend\n\n", 3, Cause::After),
        ("d3dtrace 1\nend\nend\n", 3, Cause::After),
        ("d3dtrace 1\nend\nd3dtrace 2\n", 3, Cause::After),
        ("d3dtrace 1\nend\n ", 3, Cause::Cut),
        ("d3dtrace 1\nend\n\t", 3, Cause::Line),
        ("d3dtrace 1\nfence f\t0", 2, Cause::Line),
        ("d3dtrace 1\n# comment\n\nfence f\t0\nend\n", 4, Cause::Line),
        ("d3dtrace 2\nend\n", 1, Cause::Later),
        ("d3dtrace 1\nqueue q compute\nend\n", 2, Cause::Later),
        ("d3dtrace 1\nview v uav d 0 256\nend\n", 2, Cause::Later),
        (
            "d3dtrace 1\nqueue q direct\nqueue r direct\nend\n",
            3,
            Cause::Later,
        ),
        ("d3dtrace 1\nthread t\nthread x\nend\n", 3, Cause::Later),
        ("d3dtrace 1\nthread t\nthread t\nend\n", 3, Cause::Later),
        (
            "d3dtrace 1\nqueue q direct\nqueue r foo\nend\n",
            3,
            Cause::Form,
        ),
        ("d3dtrace 1\nthread t\nthread 7\nend\n", 3, Cause::Form),
        ("d3dtrace 1\nthread t\nthread\nend\n", 3, Cause::Form),
    ]
}

/// Texts with a line that has or lacks a form, and may not stand there, with the line and the cause.
fn refused_forms() -> [(&'static str, u64, Cause); 14] {
    [
        ("d3dtrace 1\nwait q f 1\nend\n", 2, Cause::Later),
        (
            "d3dtrace 1\nthread t\nview v uav d 0 256\nend\n",
            3,
            Cause::Later,
        ),
        ("view v uav d 0 256\nend\n", 1, Cause::Later),
        ("d3dtrace 1\nvalue f\nend\n", 2, Cause::Order),
        ("value f\nend\n", 1, Cause::Order),
        (
            "d3dtrace 1\nthread t\nfence f 18446744073709551616\nend\n",
            3,
            Cause::Order,
        ),
        ("d3dtrace 1\nd3dtrace 1\nend\n", 2, Cause::Order),
        ("d3dtrace 1\nd3dtrace 3\nend\n", 2, Cause::Form),
        ("d3dtrace 3\nend\n", 1, Cause::Form),
        ("fence f 0\nend\n", 1, Cause::Form),
        ("d3dtrace 1\nfoo\nend\n", 2, Cause::Form),
        ("d3dtrace 1\nfence f  0\nend\n", 2, Cause::Form),
        ("d3dtrace 1\nthread t\nqueue q foo\nend\n", 3, Cause::Form),
        (
            "d3dtrace 1\nfence f 18446744073709551616 0\nend\n",
            2,
            Cause::Form,
        ),
    ]
}

/// Texts with a line of a form that says what it may not, with the line and the cause.
fn refused_parts() -> [(&'static str, u64, Cause); 8] {
    let f = "d3dtrace 1\nfence f 18446744073709551616\nend\n";
    let g = "d3dtrace 1\nfence f 0\nfence f 18446744073709551616\nend\n";
    [
        (f, 2, Cause::Number),
        (g, 3, Cause::Number),
        (
            "d3dtrace 1\nthread t\nhostsignal f 18446744073709551616\nend\n",
            3,
            Cause::Number,
        ),
        (
            "d3dtrace 1\nqueue q direct\nfence q 0\nend\n",
            3,
            Cause::Again,
        ),
        (
            "d3dtrace 1\nqueue q direct\nthread t\nvalue q\nend\n",
            4,
            Cause::Name,
        ),
        ("d3dtrace 1\nthread t\nvalue f\nend\n", 3, Cause::Name),
        (
            "d3dtrace 1\nthread t\nvalue a12345678901234567890123456789012\nend\n",
            3,
            Cause::Name,
        ),
        (
            "d3dtrace 1\nfence a12345678901234567890123456789012 0\nend\n",
            2,
            Cause::Limit,
        ),
    ]
}

/// A line of each form that is not built yet, by its first word or by the one that tells it apart.
fn later_lines() -> [&'static str; 29] {
    [
        "texture x legacy COMMON 4 4 1 1 plain",
        "view v srv x 0",
        "heap h visible 8",
        "signature s 1.0 const:0:1",
        "copytex l x 0 y 0",
        "copyin l x 0 b 0 256",
        "copyout l b 0 256 x 0",
        "setheap l h",
        "setroot l s",
        "setconst l 0 0 3",
        "settable l 1 0",
        "setbuffer l 0 b 0",
        "clear l 0 0",
        "dispatch l fill 64",
        "barrier l global ALL ALL COMMON COMMON",
        "transition l b all COMMON COPY_DEST",
        "uavbarrier l all",
        "resetalloc a",
        "wait q f 1",
        "descriptor h 0 v",
        "copydesc h 0 h 1",
        "queue q compute",
        "queue q copy",
        "allocator a compute",
        "allocator a copy",
        "list l compute",
        "list l copy",
        "buffer b legacy 16",
        "buffer b enhanced 16",
    ]
}

#[test]
fn a_line_of_each_later_form_is_refused_as_later(rt: HostRuntime) -> Result<(), Fail> {
    for line in later_lines() {
        for behind in ["", " x"] {
            let text = format!(in rt.alloc(); "d3dtrace 1\n{line}{behind}\nend\n")?;
            assert_eq!(rt;
                refusal(rt.alloc(), text.as_str())?,
                Some((2, Cause::Later)),
                "{line}"
            );
        }
    }
    Ok(())
}

/// The text is refused at that line with that cause.
fn is_refused(alloc: Global, row: (&str, u64, Cause)) -> Result<bool, Memory> {
    let (text, line, cause) = row;
    Ok(refusal(alloc, text)? == Some((line, cause)))
}

#[test]
fn each_bad_text_is_refused_at_its_line_with_its_cause(rt: HostRuntime) -> Result<(), Fail> {
    for row in refused_lines() {
        assert!(rt; is_refused(rt.alloc(), row)?, "{}", row.0);
    }
    for row in refused_forms() {
        assert!(rt; is_refused(rt.alloc(), row)?, "{}", row.0);
    }
    for row in refused_parts() {
        assert!(rt; is_refused(rt.alloc(), row)?, "{}", row.0);
    }
    Ok(())
}

#[test]
fn texts_of_the_grammar_are_read(rt: HostRuntime) -> Result<(), Fail> {
    let texts = [
        "d3dtrace 1\nend\n",
        "# before\n\nd3dtrace 1\n#\nend\n",
        "d3dtrace 1\nfence a1234567890123456789012345678901 18446744073709551615\nend\n",
        "d3dtrace 1\nqueue q direct\nfence f 0\nthread t\nsignal q f 1\nhostsignal f 2\nvalue f\nhostwait f 1\nexecute q\nend\n",
        "d3dtrace 1\nbuffer z upload 0\nthread t\nwrite z 0 1\nend\n",
    ];
    for text in texts {
        assert_eq!(rt; refusal(rt.alloc(), text)?, None);
    }
    Ok(())
}

/// The resources of the world of a text.
fn resources(alloc: Global, text: &str) -> Result<Vec<Option<Resource>>, TraceFault> {
    let trace = read_trace(alloc, text.as_bytes())?;
    Ok(world(alloc, &trace)?.resources.into_vec())
}

#[test]
fn a_buffer_whose_creation_is_refused_is_dead(rt: HostRuntime) -> Result<(), Fail> {
    let text =
        "d3dtrace 1\nbuffer u upload 16\nbuffer z upload 0\nbuffer b readback 1048580\nend\n";
    let live = Resource::Buffer {
        home: Home::Upload,
        words: 4,
    };
    match resources(rt.alloc(), text) {
        Ok(found) => assert_eq!(rt; found.as_slice(), [Some(live), None, None].as_slice()),
        Err(_) => panic!(rt; "the text is not read"),
    }
    Ok(())
}
