//! Calls and their replies.

ghost use Rattle.std.specs.Prelude.{◌≡◌, IfOk};
ghost use Rattle.d3d_machine.specs.declared.calls.Call.TheVariants.{Execute as execute_call, Write as write_call};

use dx_base::{AllocatorId, FenceId, Hresult, ListId, Memory, QueueId, ResourceId, Seq};
use std::alloc::Global;

/// What a recording call records.
#[derive(Clone, Copy, Debug, PartialEq, Eq)]
pub enum Record {
    /// ID3D12GraphicsCommandList::CopyBufferRegion. Offsets and the size are in bytes.
    Copy {
        to: ResourceId,
        to_offset: u64,
        from: ResourceId,
        from_offset: u64,
        bytes: u64,
    },
}

/// A call of a thread.
#[derive(Debug, PartialEq, Eq, Drop)]
pub enum Call {
    /// A call that records into a list.
    Recording {
        list: ListId,
        what: Record,
    },
    /// ID3D12GraphicsCommandList::Close.
    Close {
        list: ListId,
    },
    /// ID3D12GraphicsCommandList::Reset.
    Reset {
        list: ListId,
        allocator: AllocatorId,
    },
    /// ID3D12CommandQueue::ExecuteCommandLists.
    Execute {
        queue: QueueId,
        lists: Seq<ListId>,
    },
    /// ID3D12CommandQueue::Signal.
    Signal {
        queue: QueueId,
        fence: FenceId,
        value: u64,
    },
    /// ID3D12Fence::Signal: the host sets the fence's value, which may fall.
    HostSignal {
        fence: FenceId,
        value: u64,
    },
    /// ID3D12Fence::SetEventOnCompletion, and waiting for the event.
    HostWait {
        fence: FenceId,
        value: u64,
    },
    /// ID3D12Fence::GetCompletedValue.
    Value {
        fence: FenceId,
    },
    /// Writing words into a mapped upload buffer. The offset is in bytes.
    Write {
        buffer: ResourceId,
        offset: u64,
        words: Seq<u32>,
    },
    /// Reading words of a mapped readback buffer. The offset and the size are in bytes.
    Read {
        buffer: ResourceId,
        offset: u64,
        bytes: u64,
    },
}

impl Call {
    /// A copy of the call.
    pub fn copied(&self, alloc: Global) -> Result<Call, Memory>
        ensures { IfOk result (λ call. call ≡ self.now) }
    {
        Ok(match *self {
            Call::Recording { list, what } => Call::Recording { list, what },
            Call::Close { list } => Call::Close { list },
            Call::Reset { list, allocator } => Call::Reset { list, allocator },
            Call::Execute { queue, ref lists } => copied_execute(alloc, queue, lists)?,
            Call::Signal {
                queue,
                fence,
                value,
            } => Call::Signal {
                queue,
                fence,
                value,
            },
            Call::HostSignal { fence, value } => Call::HostSignal { fence, value },
            Call::HostWait { fence, value } => Call::HostWait { fence, value },
            Call::Value { fence } => Call::Value { fence },
            Call::Write {
                buffer,
                offset,
                ref words,
            } => copied_write(alloc, buffer, offset, words)?,
            Call::Read {
                buffer,
                offset,
                bytes,
            } => Call::Read {
                buffer,
                offset,
                bytes,
            },
        })
    }
}

/// A copy of a call that executes lists.
fn copied_execute(alloc: Global, queue: QueueId, lists: &Seq<ListId>) -> Result<Call, Memory>
    ensures { IfOk result (λ call. call ≡ execute_call queue lists.now) }
{
    let lists = Seq::from_slice(alloc, lists.as_slice())?;
    Ok(Call::Execute { queue, lists })
}

/// A copy of a call that writes a buffer.
fn copied_write(
    alloc: Global,
    buffer: ResourceId,
    offset: u64,
    words: &Seq<u32>,
) -> Result<Call, Memory>
    ensures { IfOk result (λ call. call ≡ write_call buffer offset words.now) }
{
    let words = Seq::from_slice(alloc, words.as_slice())?;
    Ok(Call::Write {
        buffer,
        offset,
        words,
    })
}

/// The answer of a call.
#[derive(Debug, PartialEq, Eq, Drop)]
pub enum Reply {
    /// The call has nothing to say.
    Done,
    /// A fence's value.
    Value(u64),
    /// Words of a buffer.
    Words(Seq<u32>),
    Error(Hresult),
}

impl Reply {
    /// A copy of the reply.
    pub fn copied(&self, alloc: Global) -> Result<Reply, Memory>
        ensures { IfOk result (λ reply. reply ≡ self.now) }
    {
        Ok(match self {
            Reply::Done => Reply::Done,
            Reply::Value(value) => Reply::Value(*value),
            Reply::Words(words) => Reply::Words(Seq::from_slice(alloc, words.as_slice())?),
            Reply::Error(error) => Reply::Error(*error),
        })
    }
}
