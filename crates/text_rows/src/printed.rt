//! Printed traces.

use std::alloc::Global;
use std::test::Fail;
use trace_text::{Trace, print_trace, read_trace};

/// A trace of all forms, with comments and empty lines.
const WRITTEN: &str = "# all forms\n\nd3dtrace 1\nqueue q direct\nfence f 0\n\
fence g_2 18446744073709551615\nbuffer u upload 16\n# its creation is refused\nbuffer z upload 0\n\
buffer b readback 16\nallocator a direct\nlist l direct\nlist m direct\nbuffer y readback 6\nthread t\n\
write u 0 1 0ab 0 deadbeef\n\nreset l a\ncopy l b 0 u 4 12\nclose l\nexecute q l m\nexecute q\n\
signal q f 1\nhostsignal g_2 3\nhostwait f 1\nvalue g_2\nread b 0 16\nend\n";

/// The same, as it is printed.
const PRINTED: &str = "d3dtrace 1\nqueue q direct\nfence f 0\n\
fence g_2 18446744073709551615\nbuffer u upload 16\nbuffer z upload 0\n\
buffer b readback 16\nallocator a direct\nlist l direct\nlist m direct\nbuffer y readback 6\nthread t\n\
write u 0 00000001 000000ab 00000000 deadbeef\nreset l a\ncopy l b 0 u 4 12\nclose l\nexecute q l m\n\
execute q\nsignal q f 1\nhostsignal g_2 3\nhostwait f 1\nvalue g_2\nread b 0 16\nend\n";

/// The trace of all forms.
fn trace_of_all_forms(alloc: Global) -> Result<Trace, &'static str> {
    match read_trace(alloc, WRITTEN.as_bytes()) {
        Ok(trace) => Ok(trace),
        Err(_) => Err("the text is not read"),
    }
}

#[test]
fn a_trace_is_printed_without_comments_and_with_eight_digits(rt: HostRuntime) -> Result<(), Fail> {
    let alloc = rt.alloc();
    let trace = trace_of_all_forms(alloc)?;
    let printed = print_trace(alloc, &trace)?;
    assert!(rt; printed.as_slice() == PRINTED.as_bytes());
    Ok(())
}
