//! The base of all layers: names of objects, error codes, the base kinds of objects, and lists that
//! contracts see as the list of their items.
#![tactic(auto)]

mod fifo;
mod hresult;
mod ids;
mod kinds;
mod limits;
mod room;
mod seq;
mod steps;

pub use fifo::Fifo;
pub use hresult::{Hresult, Memory};
pub use ids::{
    AllocatorId, FenceId, HeapId, ListId, QueueId, ResourceId, SignatureId, ThreadId, ViewId,
};
pub use kinds::{Class, Home, ListType, Routine, View};
pub use limits::{
    ALL_SLOTS, ALL_WORDS, ALLOCATORS, CALLS, EXECUTED_LISTS, FENCES, HEAP_SLOTS, HEAPS,
    INVOCATIONS, LINE_BYTES, LIST_COMMANDS, LISTS, NAME_BYTES, QUEUES, REGISTERS, RESOURCE_WORDS,
    RESOURCES, SIGNATURES, TABLE_RANGES, THREADS, TRACE_BYTES, VIEWS,
};
pub use room::Room;
pub use seq::Seq;
pub use steps::{Step, Torn};
