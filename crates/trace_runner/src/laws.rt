//! Laws of runs of rounds. The functions do nothing.

ghost use Rattle.trace_runner.specs.Laws.{RoundsAreCalm, RoundsGoOn, TextsOfRoundsAreRead, TracesOfRoundsHaveTheirWorlds};

/// The world of a trace of rounds, with the objects of the first example, is a world of rounds.
#[tactic(auto, unfolding(trace_text::specs::WorldOf::world_of_value, trace_text::specs::WorldOf::objects_from))]
pub fn traces_of_rounds_have_their_worlds()
    ensures { TracesOfRoundsHaveTheirWorlds }
{}

/// The text of at most 4,096 rounds whose values rise from 0, with words of 32 bits and values of 64, is read as those
/// rounds, and what it says has a world of rounds.
pub fn texts_of_rounds_are_read()
    ensures { TextsOfRoundsAreRead }
{}

/// After each run of a world of rounds all is finished, or the Direct3D machine can go on.
pub fn runs_of_rounds_go_on()
    ensures { RoundsGoOn }
{}

/// In each run of a world of rounds a buffer is read and written by the host only where no called operation is
/// incomplete, and each called operation has at most one command.
pub fn runs_of_rounds_are_calm()
    ensures { RoundsAreCalm }
{}
