//! Laws of the tables. The functions do nothing.

ghost use Rattle.lower_tables.specs.Laws.{TheFirstRowCounts, NamesAreOfSingles, NamesGoBothWays, StagesTakeInParts, AccessesTakeInKinds, SyncsHaveStages, LayoutsAllowKinds, StatesTakeInPairs};

/// A key finds nothing exactly where no row has it, and a value exactly where that stands in a row with the
/// key and no row before it has the key.
pub fn the_first_row_counts<V>()
    ensures { TheFirstRowCounts V }
{}

/// A text names a value exactly where it is the text of a single name, and the value that name alone.
pub fn names_are_of_singles()
    ensures { NamesAreOfSingles }
{}

/// What goes by a name comes back: a text names a value exactly where the value has that text.
pub fn names_go_both_ways()
    ensures { NamesGoBothWays }
{}

/// Where a set of syncs has a part, its stages stand for the stage of the part's commands.
pub fn stages_take_in_parts()
    ensures { StagesTakeInParts }
{}

/// Where a set of accesses has a kind, its memory accesses stand for those of the kind's commands.
pub fn accesses_take_in_kinds()
    ensures { AccessesTakeInKinds }
{}

/// Each well-formed set of syncs has a stage of the device.
pub fn syncs_have_stages()
    ensures { SyncsHaveStages }
{}

/// Where a layout allows a kind, the image's layout allows the memory accesses of the kind's commands.
pub fn layouts_allow_kinds()
    ensures { LayoutsAllowKinds }
{}

/// Where a state has a part and a kind, its stages and memory accesses stand for those of the commands.
pub fn states_take_in_pairs()
    ensures { StatesTakeInPairs }
{}
