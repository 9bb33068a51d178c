//! What the registers of a routine stand for.

use dx_base::View;

/// What stands for the words of the constant register.
#[derive(Clone, Copy, Debug, PartialEq, Eq)]
pub enum Source0 {
    /// Nothing: its word is 0.
    None,
    /// A word that the command has in itself.
    Word(u32),
    /// A view of a buffer, whose first word it is.
    Buffer(View),
}

/// What the registers of a routine stand for. One that is not bound reads 0, drops what is written, and has
/// no accesses. The class of a view is not looked at.
#[derive(Clone, Copy, Debug, PartialEq, Eq)]
pub struct Bound {
    pub t0: Option<View>,
    pub t1: Option<View>,
    pub u0: Option<View>,
    pub b0: Source0,
}
