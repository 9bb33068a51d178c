//! A world: its objects and the scripts of its threads.

use crate::calls::Call;
use dx_base::{Home, ListType, Seq};

/// What a resource is, with its size in words of four bytes.
#[derive(Clone, Copy, Debug, PartialEq, Eq)]
pub enum Resource {
    Buffer { home: Home, words: u32 },
}

/// The objects of a trace by kind, each list in the order of ids, and each thread's calls. A resource
/// whose creation was refused is dead: it is None.
#[derive(Debug, PartialEq, Eq, Drop)]
pub struct World {
    /// The type of each queue.
    pub queues: Seq<ListType>,
    /// The starting value of each fence.
    pub fences: Seq<u64>,
    pub resources: Seq<Option<Resource>>,
    /// The type of each command allocator.
    pub allocators: Seq<ListType>,
    /// The type of each command list.
    pub lists: Seq<ListType>,
    /// The calls of each thread, in order.
    pub scripts: Seq<Seq<Call>>,
}
