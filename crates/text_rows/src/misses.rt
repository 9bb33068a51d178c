//! Near misses of lines: each is refused.

use super::traces::refusal;
use std::test::Fail;
use trace_text::Cause;

/// Lines that are refused where a call may stand, and the cause.
fn bad_lines() -> [(&'static str, Cause); 22] {
    [
        ("write u 0 1 2 ", Cause::Form),
        ("write u 0 1  2", Cause::Form),
        ("write u 0 1\t2", Cause::Line),
        ("write u 0 1\r", Cause::Line),
        ("write u 0 123456789", Cause::Form),
        ("write u 0 A", Cause::Form),
        ("write u 0 g", Cause::Form),
        ("write u 0 /", Cause::Form),
        ("write u 0 :", Cause::Form),
        ("write u 0 `", Cause::Form),
        ("write u 0 0x4", Cause::Form),
        ("Write u 0 1", Cause::Form),
        ("signal q f 01", Cause::Form),
        ("signal q f 00", Cause::Form),
        ("signal q f +1", Cause::Form),
        ("signal q f 1a", Cause::Form),
        ("signal q f ", Cause::Form),
        ("signal q f 100000000000000000000", Cause::Number),
        ("signal f q 1", Cause::Name),
        ("copy l u 0 u 0", Cause::Form),
        (" end", Cause::Form),
        ("end ", Cause::Form),
    ]
}

#[test]
fn lines_that_nearly_fit_are_refused(rt: HostRuntime) -> Result<(), Fail> {
    let head = "d3dtrace 1\nqueue q direct\nfence f 0\nbuffer u upload 16\nthread t\n";
    for (line, cause) in bad_lines() {
        let text = format!(in rt.alloc(); "{head}{line}\nend\n")?;
        assert_eq!(rt;
            refusal(rt.alloc(), text.as_str())?,
            Some((6, cause)),
            "{line}"
        );
    }
    Ok(())
}
