//! Laws of the routines, and of actions on the cells of a memory. The functions do nothing.

ghost use Rattle.routines.specs.Actions.{ActionsCommute};
ghost use Rattle.routines.specs.Laws.{StoresGoByReads, StoresAreWrites, RoutinesAreActions};

/// What a routine stores goes by the numbers of the words that it reads.
pub fn stores_go_by_reads()
    ensures { StoresGoByReads }
{}

/// Each word that a routine stores is one of those that it writes.
pub fn stores_are_writes()
    ensures { StoresAreWrites }
{}

/// A routine is an action on its accesses: what it leaves in the words that it writes goes by those that it
/// reads, and it leaves all others.
pub fn routines_are_actions()
    ensures { RoutinesAreActions }
{}

/// Two actions, neither of which writes what the other one reads or writes, have one outcome in either order.
pub fn actions_that_are_apart_commute<C, N>()
    ensures { ActionsCommute C N }
{}
