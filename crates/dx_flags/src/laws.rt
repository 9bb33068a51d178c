//! Laws of the sets and of their tables. The functions do nothing.

ghost use Rattle.dx_flags.specs.Laws.{SetsAreTheirNames, SinglesHaveOne, UnionsHaveBoth, WellFormedSets, GenericReadIsTheReads, TablesGoByNames, AtomsStay, LayoutsAndCommon};

/// Two sets without unknown bits that have the same names are one.
pub fn sets_are_their_names()
    ensures { SetsAreTheirNames }
{}

/// A name alone in a set is its only one.
pub fn singles_have_one()
    ensures { SinglesHaveOne }
{}

/// A union has the names of both sets.
pub fn unions_have_both()
    ensures { UnionsHaveBoth }
{}

/// A well-formed set has a name, and a name that stands alone is the whole set. Each name alone is well
/// formed. The same holds of states.
pub fn well_formed_sets_have_names()
    ensures { WellFormedSets }
{}

/// The names of GENERIC_READ are the four read states, and no other bit is in it.
pub fn generic_read_is_the_read_states()
    ensures { GenericReadIsTheReads }
{}

/// A set has a part or a kind exactly where one of its names has it. Accesses fit syncs exactly where each
/// fits one of them. A layout allows accesses exactly where it allows each of their kinds.
pub fn tables_go_by_names()
    ensures { TablesGoByNames }
{}

/// The parts of parts are these parts, and the kinds of kinds these kinds. Each part and kind stands for
/// itself.
pub fn atoms_stay()
    ensures { AtomsStay }
{}

/// No layout allows access COMMON, and each allows NO_ACCESS.
pub fn layouts_and_common()
    ensures { LayoutsAndCommon }
{}
