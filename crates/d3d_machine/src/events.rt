//! Events of a run, operations of queues, and the contents of command lists.

use crate::calls::{Call, Record, Reply};
use dx_base::{AllocatorId, FenceId, Hresult, QueueId, Seq, ThreadId};

/// A recorded command.
#[derive(Clone, Copy, Debug, PartialEq, Eq)]
pub struct Command {
    pub what: Record,
}

/// An operation of a queue: what a call gave it to do, in order.
#[derive(Debug, PartialEq, Eq, Drop)]
pub enum Operation {
    Execute { commands: Seq<Command> },
    Signal { fence: FenceId, value: u64 },
}

/// One step of the Direct3D machine.
#[derive(Debug, PartialEq, Eq, Drop)]
pub enum Event {
    /// A thread's next call, with its reply.
    Call {
        thread: ThreadId,
        call: Call,
        reply: Reply,
    },
    /// A thread goes on behind a wait that is met.
    Awake(ThreadId),
    /// The oldest operation of a queue completes.
    Queue(QueueId),
}

/// What a command list is ready for.
#[derive(Clone, Copy, Debug, PartialEq, Eq)]
pub enum ListState {
    /// It takes commands.
    Recording,
    /// It can be executed.
    Closed,
    /// It holds an error, and can only be reset.
    Failed,
}

/// A command list: its state, the allocator of its last reset, its commands, and the first error of a
/// malformed recording call.
#[derive(Debug, PartialEq, Eq, Drop)]
pub struct Listed {
    pub state: ListState,
    pub allocator: Option<AllocatorId>,
    pub commands: Seq<Command>,
    pub error: Option<Hresult>,
}
