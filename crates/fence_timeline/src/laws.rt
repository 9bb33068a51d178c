//! Laws of fences as lists of updates. The functions do nothing.

ghost use Rattle.fence_timeline.specs.Laws.{TargetsInOrder, CatchesUpInOrder, MarksWhatSuffices, NothingIsLost};

/// A wait's target is the first update that suffices, of the applied ones, then a host signal, then the pending ones.
pub fn a_target_is_the_first_that_suffices()
    ensures { TargetsInOrder }
{}

/// Pending updates are applied in order: exactly those before the first that is not reached.
pub fn pending_updates_are_applied_in_order()
    ensures { CatchesUpInOrder }
{}

/// A wait is met exactly where an update current at its call, or a later one, marks it as it comes.
pub fn a_mark_is_an_update_that_suffices()
    ensures { MarksWhatSuffices }
{}

/// An update that an armed wait needs is not lost.
pub fn nothing_that_a_wait_needs_is_lost()
    ensures { NothingIsLost }
{}
