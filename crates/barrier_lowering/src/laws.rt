//! Laws of lowered lists and barriers. The functions do nothing.

ghost use Rattle.barrier_lowering.specs.Laws.{LayoutsDecideNoMore, ListsComeInTurn, ChangesAreExact, LayoutsStayWhole, StartupGivesFirstLayouts, BarriersKeepTheirScopes};
ghost use Rattle.barrier_lowering.specs.Supported.{LoweredIsSupported};
ghost use Rattle.barrier_lowering.specs.TableLaws.{TablesKeepOrder};

/// Each recorded command is lowered to one, and the layouts in which its list begins decide nothing of it but
/// the layouts that it names.
pub fn layouts_decide_no_more()
    ensures { LayoutsDecideNoMore }
{}

/// Lists that come one after another begin each in the layouts after those before it.
pub fn lists_come_in_turn()
    ensures { ListsComeInTurn }
{}

/// A texture's barrier has a change of layout exactly where its lowered layouts differ or the one before is
/// UNDEFINED (Vulkan 1.3, 7.7.1).
pub fn changes_are_exact()
    ensures { ChangesAreExact }
{}

/// There is a layout for each subresource of each texture, at first and after any commands.
pub fn layouts_stay_whole()
    ensures { LayoutsStayWhole }
{}

/// The start-up batch brings each image from UNDEFINED to its first layout.
pub fn startup_gives_first_layouts()
    ensures { StartupGivesFirstLayouts }
{}

/// What the before side of a barrier has lies in the first scope of its lowered form, and what the after side
/// has in the second (Vulkan 1.3, 7.1: synchronization scopes).
pub fn barriers_keep_their_scopes()
    ensures { BarriersKeepTheirScopes }
{}

/// By the tables of stages and accesses, a lowered scope can keep the order that its barriers promise.
pub fn tables_keep_order()
    ensures { TablesKeepOrder }
{}

/// The lowered form of a legal barrier names no access that its stages do not support, on both sides; nor
/// does that of a state or of a UAV barrier (Vulkan 1.3, 7.1.3, the table of supported access types).
pub fn lowered_is_supported()
    ensures { LoweredIsSupported }
{}
