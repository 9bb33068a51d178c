//! Kinds of things that have names.

/// A kind of things that have names.
#[derive(Clone, Copy, Debug, PartialEq, Eq)]
pub enum Kind {
    Queue,
    Fence,
    Resource,
    Allocator,
    List,
    Thread,
}
