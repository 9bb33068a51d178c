//! What no clause says: faults in mid-stream, that calls can succeed, and the adapters over std.

ghost use Rattle.std.specs.Prelude.{◌≤◌, IfOk, length};

use std::alloc::{AllocError, Global};
use std::io;
use std::io::{Read, Write};
use std::test::Fail;
use text_io::{
    BytesSink, BytesSource, Failed, NoSink, ReadAll, Sink, Source, StdSink, StdSource, read_all,
    write_all,
};

/// Bytes of the texts below: three reads of at most 4096 bytes, and a fourth that finds the end.
const LENGTH: usize = 10_000;

fn some_bytes(alloc: Global, length: usize) -> Result<Vec<u8>, AllocError> {
    let mut bytes = Vec::new(alloc);
    for i in 0..length {
        bytes.push((i % 251) as u8)?;
    }
    Ok(bytes)
}

#[test]
fn a_source_is_read_to_its_end_or_to_the_bound(rt: HostRuntime) -> Result<(), Fail> {
    let all = some_bytes(rt.alloc(), LENGTH)?;
    for most in [0, 1, 4_095, 4_096, 4_097, 9_999, 10_000, 10_001, 16_777_216] {
        let mut source = BytesSource::new(some_bytes(rt.alloc(), LENGTH)?, Vec::new(rt.alloc()));
        let got = read_all(rt.alloc(), &mut source, most)?;
        let end = most.min(all.len());
        assert!(rt; got.as_slice() == &all[..end], "at {most}");
        let rest = read_all(rt.alloc(), &mut source, LENGTH)?;
        assert!(rt; rest.as_slice() == &all[end..], "behind {most}");
    }
    Ok(())
}

#[test]
fn a_read_that_fails_in_mid_stream_is_a_fault_and_takes_nothing(
    rt: HostRuntime,
) -> Result<(), Fail> {
    let all = some_bytes(rt.alloc(), LENGTH)?;
    for (call, taken) in [(1, 0), (2, 4_096), (3, 8_192), (4, 10_000)] {
        let fails = [call].to_vec(rt.alloc())?;
        let mut source = BytesSource::new(some_bytes(rt.alloc(), LENGTH)?, fails);
        let got = read_all(rt.alloc(), &mut source, LENGTH + 1);
        assert!(rt; matches!(got, Err(ReadAll::ReadFault)), "at call {call}");
        assert_eq!(rt; source.fault_count(), 1, "at call {call}");
        let rest = read_all(rt.alloc(), &mut source, LENGTH + 1)?;
        assert!(rt; taken <= all.len());
        assert!(rt; rest.as_slice() == &all[taken..], "behind call {call}");
        assert_eq!(rt; source.fault_count(), 1, "behind call {call}");
    }
    Ok(())
}

#[test]
fn a_write_that_fails_in_mid_stream_is_a_fault_and_appends_nothing(
    rt: HostRuntime,
) -> Result<(), Fail> {
    for (call, held) in [
        (1, "secondthird"),
        (2, "firstthird"),
        (3, "firstsecond"),
        (4, "firstsecondthird"),
    ] {
        let fails = [call].to_vec(rt.alloc())?;
        let mut sink = BytesSink::new(rt.alloc(), 16, fails)?;
        for (k, text) in [(1, "first"), (2, "second"), (3, "third")] {
            let wrote = write_all(&mut sink, text.as_bytes());
            assert_eq!(rt; wrote.is_err(), k == call, "write {k} where {call} fails");
        }
        assert!(rt; sink.held() == held.as_bytes(), "at call {call}");
        assert_eq!(rt; sink.fault_count(), u64::from(call < 4), "at call {call}");
    }
    Ok(())
}

#[test]
fn a_full_sink_fails_and_counts(rt: HostRuntime) -> Result<(), Fail> {
    let mut sink = BytesSink::new(rt.alloc(), 8, Vec::new(rt.alloc()))?;
    assert!(rt; write_all(&mut sink, b"first").is_ok());
    assert!(rt; write_all(&mut sink, b"").is_ok());
    assert_eq!(rt; sink.write(b"second"), Ok(3));
    assert_eq!(rt; sink.write(b"ond"), Err(Failed));
    assert!(rt; write_all(&mut sink, b"ond").is_err());
    assert!(rt; sink.held() == b"firstsec".as_slice());
    assert_eq!(rt; sink.fault_count(), 2);
    Ok(())
}

#[test]
fn no_sink_takes_every_slice_whole(rt: HostRuntime) {
    let mut sink = NoSink::new();
    assert_eq!(rt; sink.write(b"first"), Ok(5));
    assert!(rt; write_all(&mut sink, b"second").is_ok());
}

#[test]
fn a_source_over_a_reader_gives_its_bytes_and_counts_its_errors(
    rt: HostRuntime,
) -> Result<(), Fail> {
    let all = some_bytes(rt.alloc(), LENGTH)?;
    let mut source = StdSource::new(all.as_slice());
    let got = read_all(rt.alloc(), &mut source, LENGTH + 1)?;
    assert!(rt; got.as_slice() == all.as_slice());
    let mut source = StdSource::new(Unsteady { calls: 0 });
    let mut into = [0; 4];
    assert_eq!(rt; source.read(&mut into), Ok(1));
    assert_eq!(rt; source.read(&mut into), Err(Failed));
    assert_eq!(rt; source.read(&mut into), Ok(0));
    assert_eq!(rt; source.into_inner().calls, 3);
    Ok(())
}

#[test]
fn a_sink_over_a_writer_passes_its_bytes_on_and_counts_its_errors(
    rt: HostRuntime,
) -> Result<(), Fail> {
    let all = some_bytes(rt.alloc(), LENGTH)?;
    let mut sink = StdSink::new(Vec::new(rt.alloc()));
    assert!(rt; write_all(&mut sink, &all).is_ok());
    assert!(rt; sink.into_inner().as_slice() == all.as_slice());
    let mut sink = StdSink::new(Unsteady { calls: 0 });
    assert_eq!(rt; sink.write(b"text"), Ok(1));
    assert_eq!(rt; sink.write(b"ext"), Err(Failed));
    assert_eq!(rt; sink.write(b"ext"), Err(Failed), "it took nothing");
    assert_eq!(rt; sink.into_inner().calls, 3);
    Ok(())
}

/// A reader and writer whose first call moves a byte, whose second fails, and whose later ones move
/// nothing.
#[derive(Drop)]
struct Unsteady {
    calls: u32,
}

impl Unsteady {
    fn call(&mut self) -> io::Result<usize>
        ensures { IfOk result (λ n. n ≤ 1) }
    {
        self.calls = self.calls.saturating_add(1);
        match self.calls {
            1 => Ok(1),
            2 => Err(io::Error::from(io::ErrorKind::TimedOut)),
            _ => Ok(0),
        }
    }
}

impl Read for Unsteady {
    fn read(&mut self, buf: &mut [u8]) -> io::Result<usize> {
        let n = self.call()?;
        Ok(n.min(buf.len()))
    }
}

impl Write for Unsteady {
    fn write(&mut self, buf: &[u8]) -> io::Result<usize> {
        let n = self.call()?;
        Ok(n.min(buf.len()))
    }

    fn flush(&mut self) -> io::Result<()> {
        Ok(())
    }
}
