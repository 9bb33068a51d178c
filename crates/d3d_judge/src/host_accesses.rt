//! What the host accesses, by the tables of what was touched before.

ghost use Rattle.std.specs.Prelude.{◌≡◌, ◌<◌, length, map, OnOk};
ghost use Rattle.clocks.specs.Clocks.{OfThread};
ghost use Rattle.d3d_judge.specs.CarriedClocks.{IsSized};
ghost use Rattle.d3d_judge.specs.CopyScopes.{range_by, IsIn, IsShapedFor, AreSmall, CanAsk};
ghost use Rattle.d3d_judge.specs.HostCalls.{access_in, written_at, read_at, access_unless as unless_refused};
ghost use Rattle.d3d_judge.specs.Setting.{traits_of};
ghost use Rattle.d3d_judge.specs.WordTouches.{TellsHost, HaveOneMore, HasTablesOfThread, KeepAllTies, KeepTables};

use crate::copies::words_of;
use crate::word_touches::{WordAccess, WordTouches};
use clocks::Clock;
use d3d_machine::{Call, World, read_refusal, write_refusal};
use dx_base::{Hresult, Memory, ResourceId};
use std::alloc::Global;

/// What a call of the host accesses; nothing where it is refused, or accesses no words.
pub(crate) fn access_of(world: &World, call: &Call) -> Option<WordAccess>
    ensures { result ≡ access_in world.now call.now }
{
    match *call {
        Call::Write {
            buffer,
            offset,
            ref words,
        } => write_access(world, buffer, offset, words.len()),
        Call::Read {
            buffer,
            offset,
            bytes,
        } => read_access(world, buffer, offset, bytes),
        Call::Recording { list: _, what: _ }
        | Call::Close { list: _ }
        | Call::Reset {
            list: _,
            allocator: _,
        }
        | Call::Execute { queue: _, lists: _ }
        | Call::Signal {
            queue: _,
            fence: _,
            value: _,
        }
        | Call::HostSignal { fence: _, value: _ }
        | Call::HostWait { fence: _, value: _ }
        | Call::Value { fence: _ } => None,
    }
}

/// What the writing of so many words accesses. The offset is in bytes.
fn write_access(world: &World, buffer: ResourceId, offset: u64, count: usize) -> Option<WordAccess>
    ensures { result ≡ written_at world.now buffer offset count }
{
    let access = WordAccess {
        resource: buffer.0,
        sub: 0,
        first: (offset / 4) as usize,
        words: count,
        writes: true,
    };
    access_unless(write_refusal(world, buffer, offset, count), access)
}

/// What the reading of so many bytes accesses. The offset is in bytes.
fn read_access(world: &World, buffer: ResourceId, offset: u64, bytes: u64) -> Option<WordAccess>
    ensures { result ≡ read_at world.now buffer offset bytes }
{
    let access = WordAccess {
        resource: buffer.0,
        sub: 0,
        first: (offset / 4) as usize,
        words: (bytes / 4) as usize,
        writes: false,
    };
    access_unless(read_refusal(world, buffer, offset, bytes), access)
}

/// An access, where it is not refused.
fn access_unless(refusal: Option<Hresult>, access: WordAccess) -> Option<WordAccess>
    ensures { result ≡ unless_refused refusal access }
{
    match refusal {
        None => Some(access),
        Some(_) => None,
    }
}

/// Makes the tables for words of a buffer that a thread accesses, where there are none. Refused, some may be made.
pub(crate) fn make_for_host(
    alloc: Global,
    touches: &mut WordTouches,
    world: &World,
    thread: u32,
    access: WordAccess,
) -> Result<(), Memory>
    requires small { AreSmall world.now }
    requires shaped { IsShapedFor world.now touches.old.resources }
    requires thread { thread < length world.now.scripts }
    requires sub { access.sub ≡ 0 }
    requires inside { IsIn (map traits_of world.now.resources) (range_by access) }
    ensures tables { OnOk result (HasTablesOfThread touches.new.resources thread access) }
    ensures ties { KeepAllTies touches.old.resources touches.new.resources }
    ensures kept { KeepTables touches.old.resources touches.new.resources }
    ensures shaped { IsShapedFor world.now touches.new.resources }
{
    let words = words_of(world, access.resource);
    touches.make_for_call(alloc, thread, access, words)
}

/// Whether an access of the host meets one that a clock does not know.
pub(crate) fn meets_any(
    touches: &WordTouches,
    world: &World,
    clock: &Clock,
    access: WordAccess,
) -> bool
    requires { CanAsk world.now touches.now.resources clock.now access }
    ensures { TellsHost touches.now.resources clock.now access result }
{
    touches.breaks_host(clock, access)
}

/// A call of a thread accesses words.
pub(crate) fn touch_by_host(
    touches: &mut WordTouches,
    world: &World,
    thread: u32,
    number: u64,
    access: WordAccess,
)
    requires small { AreSmall world.now }
    requires shaped { IsShapedFor world.now touches.old.resources }
    requires thread { thread < length world.now.scripts }
    requires inside { IsIn (map traits_of world.now.resources) (range_by access) }
    requires tables { HasTablesOfThread touches.old.resources thread access }
    ensures ties { HaveOneMore touches.old.resources (OfThread thread number) access touches.new.resources }
    ensures shaped { IsShapedFor world.now touches.new.resources }
{
    touches.add_call(thread, number, access);
}
