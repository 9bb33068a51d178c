//! Laws of clocks, of scopes and of the judge. The functions do nothing.

ghost use Rattle.d3d_judge.specs.Laws.{PendingAreCalled, StaySound, ClocksAreSound, LoadsAreFresh, StoresAreFresh, KnowAhead};
ghost use Rattle.d3d_judge.specs.Laws.{CleanExecutesKnow, CleanClocksAre, MadeIsAll, TouchedAreAll, BrokenStays, RepliesPlayNoPart, RightWordsPlayNoPart};
ghost use Rattle.d3d_judge.specs.CarriedClocks.{SizesStay};
ghost use Rattle.d3d_judge.specs.WordTouches.{ShapesStay};
ghost use Rattle.d3d_judge.specs.CoverPlaces.{PlacesTell, PlacesTellFirst};
ghost use Rattle.d3d_judge.specs.Thresholds.{CoversGrow, ThresholdsTell, ThresholdsAreBehind};
ghost use Rattle.d3d_judge.specs.Tables.{TablesTell, QueueTablesTell, ThreadTablesTell};
ghost use Rattle.d3d_judge.specs.Laws.{OfScopes, BreakNothing, ScopesCover, ChangesReach, AccessesAreAllowed, OpenedAreAll, CommandsApart, PlacesCount, LaterCovers};

/// The clocks of a history know only calls that were made and operations that are complete.
#[tactic(none)]
pub fn clocks_are_sound()
    ensures stay { StaySound }
    ensures of_histories { ClocksAreSound }
{}

/// Clocks have a number for each queue and each thread of the world, at first and along a history.
#[tactic(none)]
pub fn clocks_keep_their_sizes()
    ensures { SizesStay }
{}

/// The pending operations of the clocks are the machine's called and incomplete ones, queue by queue.
#[tactic(none)]
pub fn pending_operations_are_those_of_the_machine()
    ensures { PendingAreCalled }
{}

/// Right after a host access no clock but that of its thread knows the call.
#[tactic(none)]
pub fn host_accesses_are_fresh()
    ensures loads { LoadsAreFresh }
    ensures stores { StoresAreFresh }
{}

/// What operations that complete from now on know beyond what is complete, they know through one another alone.
#[tactic(none)]
pub fn operations_know_ahead_through_one_another()
    ensures { KnowAhead }
{}

/// Where the verdict is clean after an execute completed, the execute knows each earlier touch that meets one of
/// its own.
#[tactic(none)]
pub fn clean_executes_know()
    ensures { CleanExecutesKnow }
{}

/// Of a clean verdict the judge's clocks are those of the history.
#[tactic(none)]
pub fn clean_clocks_are_those_of_the_history()
    ensures { CleanClocksAre }
{}

/// Of a clean verdict, what was made is all that the events touch, in order.
#[tactic(none)]
pub fn all_that_was_touched_is_kept()
    ensures of_histories { MadeIsAll }
    ensures of_scopes { OfScopes TouchedAreAll }
{}

/// A broken verdict stays, with its rule and its event.
#[tactic(none)]
pub fn a_broken_verdict_stays()
    ensures { BrokenStays }
{}

/// No reply plays a part, and so no word that was read.
#[tactic(none)]
pub fn replies_play_no_part()
    ensures { RepliesPlayNoPart }
{}

/// A history whose words are those that the machine gives has the clocks that it has with any other words, and the same is
/// said of it. So what holds of each run holds of each run but for words.
#[tactic(none)]
pub fn right_words_play_no_part()
    ensures { RightWordsPlayNoPart }
{}

/// At each place of a clean scope no rule is broken.
#[tactic(none)]
pub fn a_clean_scope_breaks_nothing()
    ensures { OfScopes BreakNothing }
{}

/// In a clean scope each earlier access that meets one of a command has a barrier between that covers it.
#[tactic(none)]
pub fn a_clean_scope_covers()
    ensures { OfScopes ScopesCover }
{}

/// In a clean scope a layout change reaches each earlier access of its words.
#[tactic(none)]
pub fn layout_changes_reach()
    ensures { OfScopes ChangesReach }
{}

/// In a clean scope each access is allowed, and reads no lost word.
#[tactic(none)]
pub fn accesses_are_allowed()
    ensures { OfScopes AccessesAreAllowed }
{}

/// What a clean scope opens are the accesses and the layout changes of its commands, in order.
#[tactic(none)]
pub fn a_clean_scope_opens_all()
    ensures { OfScopes OpenedAreAll }
{}

/// The accesses of one command of a clean scope are apart.
#[tactic(none)]
pub fn commands_are_apart()
    ensures { OfScopes CommandsApart }
{}

/// The place of a clean scope is that of its next command.
#[tactic(none)]
pub fn places_count_commands()
    ensures { OfScopes PlacesCount }
{}

/// Of two accesses of a clean scope that meet, the earlier is covered before the later.
#[tactic(none)]
pub fn later_accesses_cover()
    ensures { OfScopes LaterCovers }
{}

/// Tables of the greatest number at each word tell as much of B1 and B10 as the list of all that was touched, of
/// every list: nothing in it has to be known to anybody, and nothing is ever taken out.
#[tactic(none)]
pub fn tables_tell_who_is_unknown()
    ensures of_any { TablesTell }
    ensures of_queues { QueueTablesTell }
    ensures of_threads { ThreadTablesTell }
{}

/// The covered pairs of an access are a set that grows by the two cases of cover alone, and one threshold for each
/// pair tells these sets of all accesses of one own pair.
#[tactic(none)]
pub fn thresholds_tell_what_is_covered()
    ensures sets { CoversGrow }
    ensures thresholds { ThresholdsTell }
    ensures behind { ThresholdsAreBehind }
{}

/// The tables of a world's words have nothing at first, and a shape that touches keep: a subresource and
/// actors for each of the world, and words enough.
#[tactic(none)]
pub fn tables_keep_their_shapes()
    ensures { ShapesStay }
{}

/// One place for each pair, as the code keeps them, tells which pairs are covered of each access of an own pair.
#[tactic(none)]
pub fn places_tell_what_is_covered()
    ensures barriers { PlacesTell }
    ensures accesses { PlacesTellFirst }
{}
