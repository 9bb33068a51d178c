//! Laws of the machine. The functions do nothing.

ghost use Rattle.d3d_machine.specs.Laws.{StepsMay, RefusedCallsHaveNoEffect, RunsFollowScripts, WaitsAreMetSince, RecordedAreGood};
ghost use Rattle.d3d_machine.specs.Past.{PastsAreRight, PastsHaveOperations};
ghost use Rattle.d3d_machine.specs.RightWords.{WordsAreApart};

/// The events of the steps are the events that may come: what a thread's or a queue's step gives may come,
/// and of each thread and each queue nothing else may.
#[tactic(auto, using(crate::proofs::Steps::steps_may))]
pub fn the_steps_are_the_events_that_may_come()
    ensures { StepsMay }
{}

/// In a run, also but for words, a call that is answered by an error leaves memory, fences, queues and waits as before.
/// Its thread has made one call more, and the lists are as before, but that a recording list whose close is refused has
/// failed.
#[tactic(auto, using(crate::proofs::Refusals::refused_calls_have_no_effect))]
pub fn refused_calls_have_no_effect()
    ensures { RefusedCallsHaveNoEffect }
{}

/// In a run, also but for words, each thread's calls are the first of its script, in order.
#[tactic(auto, using(crate::proofs::Places::runs_follow_scripts))]
pub fn runs_follow_scripts()
    ensures { RunsFollowScripts }
{}

/// In a run of a valid world, also but for words, the wait of a thread is met exactly where an update of its fence is at
/// least its value that was current at the call or applied since.
#[tactic(auto, using(crate::proofs::Marking::marks_are_met))]
pub fn waits_are_met_since()
    ensures { WaitsAreMetSince }
{}

/// In a run of a valid world, also but for words, the past tells the machine: each thread is at its place of the past, its
/// wait met exactly where an update of the fence suffices that was current at the call or came since, and each fence has the
/// value of its last update.
#[tactic(auto, using(crate::proofs::PastPlaces::pasts_are_right))]
pub fn pasts_are_right()
    ensures { PastsAreRight }
{}

/// The past has the operations that a history called on each queue of the world, each with the place of its call in the
/// history, and how many of them the history completed.
#[tactic(auto, using(crate::proofs::PastCalls::pasts_have_operations))]
pub fn pasts_have_operations()
    ensures { PastsHaveOperations }
{}

/// A history is a run but for words exactly where it becomes a run when the numbers of the words that it read, and only
/// these, are replaced by as many that the machine gives. That changes neither the calls of a thread, nor the state with
/// its lists, queues, fences and marks, nor the past.
#[tactic(auto, using(crate::proofs::RightWords::words_are_apart))]
pub fn words_are_apart()
    ensures { WordsAreApart }
{}

/// In every history each command of a list, and of a called operation that is not complete, names live buffers,
/// and its ranges are whole words inside them that do not overlap: what is recorded lies inside its resources.
#[tactic(auto, using(crate::proofs::Good::recorded_are_good))]
pub fn recorded_commands_lie_inside()
    ensures { RecordedAreGood }
{}
