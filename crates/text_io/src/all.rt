//! Reading a source to its end or a bound, and writing a text to a sink as a whole.

ghost use Rattle.std.specs.Prelude.{◌≡◌, ◌≤◌, length, take, drop, Some, IfOk, OnOk, OnErr, IfSome, IsErrOf};
ghost use Rattle.std.specs.Option.{is_some};
ghost use Rattle.std.specs.Io.KnownBytes.{Appends};
ghost use Rattle.dx_base.specs.Faults.{HasRisen};
ghost use Rattle.text_io.specs.Prefix.{AppendsPart};
ghost use Rattle.text_io.specs.declared.all.ReadAll.TheVariants.{Memory as want_of_memory};

use crate::outside::{Failed, Sink, Source};
use dx_base::Memory;
use std::alloc::{AllocError, Global};

/// Bytes that are asked for at a time.
const CHUNK: usize = 4096;

/// Why a source was not read.
#[derive(Clone, Copy, Debug, PartialEq, Eq)]
pub enum ReadAll {
    /// A read failed.
    ReadFault,
    /// Memory was refused.
    Memory,
}

impl From<Memory> for ReadAll {
    ghost from_gives = { λ _ e. e ≡ want_of_memory };

    fn from(_error: Memory) -> ReadAll {
        ReadAll::Memory
    }
}

impl From<AllocError> for ReadAll {
    ghost from_gives = { λ _ e. e ≡ want_of_memory };

    fn from(_error: AllocError) -> ReadAll {
        ReadAll::Memory
    }
}

impl From<Failed> for ReadAll {
    ghost use Rattle.text_io.specs.declared.all.ReadAll.TheVariants.{ReadFault as read_fault};

    ghost from_gives = { λ _ e. e ≡ read_fault };

    fn from(_error: Failed) -> ReadAll {
        ReadAll::ReadFault
    }
}

/// The bytes of a source, to its end or until so many came. `ReadFault` comes only where a read
/// failed, `Memory` where memory was refused; what came before is lost then.
pub fn read_all<S: Source>(alloc: Global, source: &mut S, most: usize) -> Result<Vec<u8>, ReadAll>
    ensures bytes { IfOk result (λ bytes. IfSome (S.left source.old) (λ all. bytes.items ≡ take most all)) }
    ensures bound { IfOk result (λ bytes. length bytes.items ≤ most) }
    ensures left { OnOk result (IfSome (S.left source.old) (λ all. S.left source.new ≡ Some (drop most all))) }
    ensures told { is_some (S.left source.new) ≡ is_some (S.left source.old) }
    ensures count { S.faults source.old ≤ S.faults source.new }
    ensures fault { IsErrOf result ReadAll.ReadFault → HasRisen (S.faults source.old) (S.faults source.new) }
{
    let mut bytes = Vec::new(alloc);
    let mut chunk = [0u8; CHUNK];
    while bytes.len() < most {
        let wanted = CHUNK.min(most - bytes.len());
        let got = source.read(&mut chunk[..wanted])?;
        if got == 0 {
            return Ok(bytes);
        }
        bytes.extend_from_slice(&chunk[..got])?;
    }
    Ok(bytes)
}

/// Writes all bytes to a sink. `Failed` comes only where a write failed; then the sink took some of
/// the bytes from the front, and not all.
pub fn write_all<K: Sink>(sink: &mut K, bytes: &[u8]) -> Result<(), Failed>
    ensures bytes { OnOk result (Appends (K.held sink.old) (K.held sink.new) bytes.now) }
    ensures told { is_some (K.held sink.new) ≡ is_some (K.held sink.old) }
    ensures count { K.faults sink.old ≤ K.faults sink.new }
    ensures cause { OnErr result (HasRisen (K.faults sink.old) (K.faults sink.new)) }
    ensures part { OnErr result (AppendsPart (K.held sink.old) (K.held sink.new) bytes.now) }
{
    let mut at = 0;
    while at < bytes.len() {
        let (_, rest) = bytes.split_at(at);
        at += sink.write(rest)?;
    }
    Ok(())
}
