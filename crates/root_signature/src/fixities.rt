//! From when on descriptors and data do not change.

/// From when on something does not change.
#[derive(Clone, Copy, Debug, PartialEq, Eq)]
pub enum Fixity {
    /// From the call on that sets it.
    Static,
    /// From the execution of the list on.
    AtExecute,
    /// From the time on at which it is used.
    Volatile,
}

/// What a flag word promises.
#[derive(Clone, Copy, Debug, PartialEq, Eq)]
pub struct Effective {
    /// Of descriptors: `Static` or `Volatile`.
    pub descriptors: Fixity,
    /// Of the data that they view.
    pub values: Fixity,
}
