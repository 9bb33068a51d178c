//! Laws of the Vulkan machine. The functions do nothing.

ghost use Rattle.vk_sync_rules.specs.Barriers.{BarriersClear, BarriersShow, StaysBehind};
ghost use Rattle.vk_sync_rules.specs.BatchEnds.{StaysEnded, StaysPassed};
ghost use Rattle.vk_sync_rules.specs.Entries.{EarlierEnter, EnteredAreCovered, EnteredStay, HostEnters, WaitsEnter};
ghost use Rattle.vk_sync_rules.specs.FirstState.{DevicesBegin, FirstBegins};
ghost use Rattle.vk_sync_rules.specs.Growth.{EndsSignalAccesses, GainsAddScopes, NothingShrinks};
ghost use Rattle.vk_sync_rules.specs.HostAccesses.{HostReadsSee, SubmissionsHost};
ghost use Rattle.vk_sync_rules.specs.Knowledge.{SeenGoesOn, SeenKeeps, SeenSplits};
ghost use Rattle.vk_sync_rules.specs.LastWrites.{LastWritesAreLast};
ghost use Rattle.vk_sync_rules.specs.Makers.{StaysOwned};
ghost use Rattle.vk_sync_rules.specs.NumberRows.{NumberRows, StepRows};
ghost use Rattle.vk_sync_rules.specs.RuleRows.{CommandRows, HostRows, LayoutRows, OrderRows, SubmitRows, WaitRows};
ghost use Rattle.vk_sync_rules.specs.Soundness.{StaysSound};
ghost use Rattle.vk_sync_rules.specs.Timelines.{FirstIsTimed, KnownEnter, KnownIsDone, StaysTimed, WaitersEnter};

/// The worked rows of the rules, of the numbers that commands leave, and of the steps that can be taken.
pub fn rows_compute()
    ensures order { OrderRows }
    ensures waits { WaitRows }
    ensures layouts { LayoutRows }
    ensures submissions { SubmitRows }
    ensures commands { CommandRows }
    ensures host { HostRows }
    ensures numbers { NumberRows }
    ensures steps { StepRows }
{}

/// What is ordered after an access that gains a scope, and what sees it: what was and did, and what the scope has.
#[tactic(auto, using(crate::proofs::Growth::gains_add))]
pub fn gains_add_scopes()
    ensures { GainsAddScopes }
{}

/// The ends of batches alone signal an access, with what their batches set.
#[tactic(auto, using(crate::proofs::Growth::ends_signal))]
pub fn ends_signal_accesses()
    ensures { EndsSignalAccesses }
{}

/// What was ordered after an access, saw it or was signalled by it stays so, whatever steps are taken.
#[tactic(auto, using(crate::proofs::Growth::keeps_steps))]
pub fn nothing_shrinks()
    ensures { NothingShrinks }
{}

/// The last write of a word is the last of those that write it.
#[tactic(auto, using(crate::proofs::LastWrites::finds_last))]
pub fn last_writes_are_last()
    ensures { LastWritesAreLast }
{}

/// In a run, whatever has to be done before a done command is done.
#[tactic(auto, using(crate::proofs::Soundness::sound_steps))]
pub fn runs_stay_sound()
    ensures { StaysSound }
{}

/// In a run, each access is behind each done barrier: ordered before its second scope where it is in the first one,
/// and seen there where it is a write that the barrier made available, or that was available when it was reached.
#[tactic(auto, using(crate::proofs::Barriers::behind_steps))]
pub fn accesses_stay_behind_barriers()
    ensures { StaysBehind }
{}

/// Behind a full barrier all commands come after what is in its first scope.
#[tactic(auto, using(crate::proofs::FirstState::barriers_clear))]
pub fn full_barriers_clear()
    ensures { BarriersClear }
{}

/// Behind a barrier to the host, the host sees what was written before it.
#[tactic(auto, using(crate::proofs::FirstState::barriers_show))]
pub fn host_barriers_show()
    ensures { BarriersShow }
{}

/// In a run, what a batch that has passed waited for comes before it, and what was made before a batch that has ended
/// is signalled by the values that it set.
#[tactic(auto, using(crate::proofs::BatchEnds::passed_steps))]
pub fn batches_stay_passed()
    ensures { StaysPassed }
{}

/// In a run, the commands of a batch that has ended are done.
#[tactic(auto, using(crate::proofs::EndedBatches::ended_steps))]
pub fn batches_stay_ended()
    ensures { StaysEnded }
{}

/// In a run, each access has the done command that made it, or the host did.
#[tactic(auto, using(crate::proofs::Makers::owned_steps))]
pub fn accesses_stay_owned()
    ensures { StaysOwned }
{}

/// A submission orders what the host did before it.
#[tactic(auto, using(crate::proofs::FirstState::submissions_host))]
pub fn submissions_order_the_host()
    ensures { SubmissionsHost }
{}

/// Behind the end of a batch with a barrier to the host, the host comes after what is in the barrier's first scope, and
/// sees what was written there.
#[tactic(auto, using(crate::proofs::HostAccesses::host_sees))]
pub fn host_reads_see()
    ensures { HostReadsSee }
{}

/// A state in which nothing was done keeps what every state of a run keeps; that of a device that was just created is one.
#[tactic(auto, using(crate::proofs::FirstState::first_begins, crate::proofs::FirstState::devices_begin))]
pub fn first_states_begin()
    ensures first { FirstBegins }
    ensures device { DevicesBegin }
{}

/// A batch knows what it sets and waits for and what the earlier batches know that it knows, and nothing else.
#[tactic(auto, using(crate::proofs::Knowledge::seen_keeps, crate::proofs::Knowledge::seen_splits))]
pub fn batches_know()
    ensures keeps { SeenKeeps }
    ensures splits { SeenSplits }
{}

/// What batches know stays, where one more is submitted.
#[tactic(auto, using(crate::proofs::Knowledge::seen_goes_on))]
pub fn knowledge_goes_on()
    ensures { SeenGoesOn }
{}

/// What was made in an earlier batch of the queue, by the host before the submission, or before what the batch waited
/// for, enters the batch: it is in the first scope of a full barrier that leads it. It enters the later batches, too.
#[tactic(auto, using(crate::proofs::Entries::earlier_enter, crate::proofs::Entries::host_enters, crate::proofs::Entries::waits_enter, crate::proofs::Entries::entered_stay))]
pub fn earlier_accesses_enter()
    ensures earlier { EarlierEnter }
    ensures host { HostEnters }
    ensures waits { WaitsEnter }
    ensures stays { EnteredStay }
{}

/// Where a full barrier leads a batch, what enters the batch comes before each of its commands that can run.
#[tactic(auto, using(crate::proofs::Entries::entered_covered))]
pub fn entered_accesses_come_before()
    ensures { EnteredAreCovered }
{}

/// A run whose submissions are orderly is one whose ends set new values; the values of its batches rise, and are reached
/// just by the ends of those that set them.
#[tactic(auto, using(crate::proofs::Timelines::timed_steps, crate::proofs::Timelines::first_timed))]
pub fn values_rise()
    ensures runs { StaysTimed }
    ensures first { FirstIsTimed }
{}

/// What a batch that has passed knows by its waits alone is done, but for its own queue; once it has ended, all is.
#[tactic(auto, using(crate::proofs::KnownBatches::known_done))]
pub fn known_batches_are_done()
    ensures { KnownIsDone }
{}

/// The accesses of a batch enter each batch that has passed and knows a value that it sets, as those do that wait for it.
#[tactic(auto, using(crate::proofs::KnownBatches::known_enter, crate::proofs::KnownBatches::waiters_enter))]
pub fn known_accesses_enter()
    ensures known { KnownEnter }
    ensures waiters { WaitersEnter }
{}
