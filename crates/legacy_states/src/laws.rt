//! Laws of legacy states. The functions do nothing.

ghost use Rattle.legacy_states.specs.Laws.{PromotionsAreSound, DecaysAreSound, RowsOfStates};

/// The state after an allowed access contains what the access needs, is one that a resource may be in, and stayed
/// or was COMMON or a union of read states that was promoted.
pub fn promotions_are_sound()
    ensures { PromotionsAreSound }
{}

/// At the end of a scope a plain texture that no read promoted keeps its state on a queue that has more than copies.
/// All else goes to COMMON.
pub fn decays_are_sound()
    ensures { DecaysAreSound }
{}

/// Rows of the tables, computed: among them, that a plain texture in COMMON is not promoted for unordered access,
/// and that one that a copy wrote keeps its state.
pub fn rows_of_states()
    ensures { RowsOfStates }
{}
