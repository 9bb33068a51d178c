//! Limits of the product.

/// Bytes of a trace.
pub const TRACE_BYTES: usize = 16_777_216;

/// Bytes of a line of a trace, without its line feed.
pub const LINE_BYTES: usize = 4096;

/// Bytes of a name.
pub const NAME_BYTES: usize = 32;

/// Queues of a trace.
pub const QUEUES: usize = 16;

/// Threads of a trace.
pub const THREADS: usize = 16;

/// Fences of a trace.
pub const FENCES: usize = 256;

/// Root signatures of a trace.
pub const SIGNATURES: usize = 256;

/// Resources of a trace.
pub const RESOURCES: usize = 4096;

/// Words of one resource.
pub const RESOURCE_WORDS: u32 = 262_144;

/// Words of all resources together.
pub const ALL_WORDS: u32 = 1_048_576;

/// Views of a trace.
pub const VIEWS: usize = 65_536;

/// Descriptor heaps of a trace.
pub const HEAPS: usize = 64;

/// Slots of one descriptor heap.
pub const HEAP_SLOTS: u32 = 65_536;

/// Slots of all descriptor heaps together.
pub const ALL_SLOTS: u32 = 262_144;

/// Command allocators of a trace.
pub const ALLOCATORS: usize = 1024;

/// Command lists of a trace.
pub const LISTS: usize = 1024;

/// Calls of all threads together.
pub const CALLS: usize = 65_536;

/// Lists named by all execute calls together, each naming counted.
pub const EXECUTED_LISTS: usize = 4096;

/// Commands of one list.
pub const LIST_COMMANDS: usize = 1024;

/// Invocations of one dispatch.
pub const INVOCATIONS: u32 = 1_048_576;

/// Ranges of one descriptor table.
pub const TABLE_RANGES: usize = 16;

/// Registers of a class: they are numbered from 0.
pub const REGISTERS: u32 = 64;
