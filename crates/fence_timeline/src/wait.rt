//! A wait that a fence armed.

use dx_base::FenceId;

/// A wait on a fence. It is met once the update with the number `since`, which was current at its call, or a later
/// applied one has at least the value `value`.
#[derive(Clone, Copy, Debug, PartialEq, Eq)]
pub struct Wait {
    pub fence: FenceId,
    pub value: u64,
    pub since: u64,
    /// What tells the waits of one fence apart: later ones have greater numbers.
    pub(crate) number: u64,
}
