//! How far the system has come.

/// How far the system has come.
#[derive(Clone, Copy, Debug, PartialEq, Eq)]
pub enum Over {
    /// A step can be taken.
    Running,
    /// Every script has ended, and every queue is empty.
    Done,
    /// No step can be taken, and a script or a queue is not finished.
    Stalled,
    /// A rule is broken; this does not come yet.
    Broken,
    /// A descriptor was torn; this does not come yet.
    Torn,
}
