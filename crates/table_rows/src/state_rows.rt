//! Tables of promotion, decay and transition, worked out by hand.

use dx_base::ListType;
use dx_flags::State;
use legacy_states::{Current, Kind, decay, promote, transition};

const COMMON: State = State::COMMON;

const CONSTANTS: State = State::VERTEX_AND_CONSTANT_BUFFER;

const SHADER: State = State::NON_PIXEL_SHADER_RESOURCE;

const PIXEL: State = State::PIXEL_SHADER_RESOURCE;

const SOURCE: State = State::COPY_SOURCE;

const DEST: State = State::COPY_DEST;

const WRITES: State = State::UNORDERED_ACCESS;

/// Both shader states.
const SHADERS: State = State(State::NON_PIXEL_SHADER_RESOURCE.0 | State::PIXEL_SHADER_RESOURCE.0);

/// What shaders and copies read.
const READS: State = State(State::NON_PIXEL_SHADER_RESOURCE.0 | State::COPY_SOURCE.0);

/// All read states but one of those of shaders.
const MORE: State = State(State::VERTEX_AND_CONSTANT_BUFFER.0 | State::COPY_SOURCE.0);

/// A kind, a state and whether an access brought it, a need, and the state after with the same, if there is one.
const PROMOTIONS: [(Kind, State, bool, State, Option<(State, bool)>); 39] = [
    // From COMMON a buffer goes anywhere.
    (
        Kind::Buffer,
        COMMON,
        false,
        CONSTANTS,
        Some((CONSTANTS, true)),
    ),
    (Kind::Buffer, COMMON, false, SHADER, Some((SHADER, true))),
    (Kind::Buffer, COMMON, false, SOURCE, Some((SOURCE, true))),
    (Kind::Buffer, COMMON, false, DEST, Some((DEST, true))),
    (Kind::Buffer, COMMON, false, WRITES, Some((WRITES, true))),
    (Kind::Buffer, COMMON, false, COMMON, Some((COMMON, false))),
    // So does a shared texture.
    (
        Kind::Shared,
        COMMON,
        false,
        CONSTANTS,
        Some((CONSTANTS, true)),
    ),
    (Kind::Shared, COMMON, false, DEST, Some((DEST, true))),
    (Kind::Shared, COMMON, false, WRITES, Some((WRITES, true))),
    // A plain one is read by shaders and copied, and neither written by shaders nor read as constants.
    (Kind::Plain, COMMON, false, WRITES, None),
    (Kind::Plain, COMMON, false, CONSTANTS, None),
    (Kind::Plain, COMMON, false, SHADER, Some((SHADER, true))),
    (Kind::Plain, COMMON, false, PIXEL, Some((PIXEL, true))),
    (Kind::Plain, COMMON, false, SOURCE, Some((SOURCE, true))),
    (Kind::Plain, COMMON, false, DEST, Some((DEST, true))),
    // A state that contains the need stays, promoted or not.
    (Kind::Plain, SHADERS, false, SHADER, Some((SHADERS, false))),
    (Kind::Plain, SHADERS, false, PIXEL, Some((SHADERS, false))),
    (Kind::Plain, WRITES, false, WRITES, Some((WRITES, false))),
    (Kind::Plain, DEST, true, DEST, Some((DEST, true))),
    (
        Kind::Buffer,
        State::GENERIC_READ,
        false,
        CONSTANTS,
        Some((State::GENERIC_READ, false)),
    ),
    // A promoted read state is joined with a further read.
    (Kind::Buffer, SOURCE, true, SHADER, Some((READS, true))),
    (Kind::Buffer, SOURCE, true, CONSTANTS, Some((MORE, true))),
    (Kind::Shared, SHADER, true, SOURCE, Some((READS, true))),
    (Kind::Plain, SHADER, true, SOURCE, Some((READS, true))),
    (Kind::Plain, SHADER, true, PIXEL, Some((SHADERS, true))),
    (Kind::Plain, SHADER, true, CONSTANTS, None),
    (Kind::Plain, READS, true, SHADER, Some((READS, true))),
    // With no write, and one that a transition brought with nothing.
    (Kind::Buffer, SOURCE, true, DEST, None),
    (Kind::Buffer, SOURCE, true, WRITES, None),
    (Kind::Buffer, SOURCE, true, COMMON, None),
    (Kind::Buffer, SOURCE, false, SHADER, None),
    (Kind::Shared, SHADER, false, SOURCE, None),
    (Kind::Plain, SHADER, false, SOURCE, None),
    // A promoted write is joined with nothing.
    (Kind::Buffer, DEST, true, SOURCE, None),
    (Kind::Buffer, WRITES, true, SHADER, None),
    (Kind::Buffer, DEST, true, WRITES, None),
    (Kind::Shared, WRITES, true, DEST, None),
    (Kind::Plain, DEST, false, SOURCE, None),
    (Kind::Plain, WRITES, false, SHADER, None),
];

#[test]
fn an_access_promotes_exactly_where_the_table_says(rt: HostRuntime) {
    for (at, (kind, state, promoted, need, want)) in PROMOTIONS.iter().enumerate() {
        let now = Current {
            state: *state,
            promoted: *promoted,
        };
        let want = match *want {
            Some((state, promoted)) => Some(Current { state, promoted }),
            None => None,
        };
        assert!(rt; promote(*kind, now, *need) == want, "row {at}");
    }
}

/// A kind, a queue, a state and whether an access brought it, and the state at the end of the scope.
const DECAYS: [(Kind, ListType, State, bool, State); 17] = [
    (Kind::Buffer, ListType::Direct, WRITES, false, COMMON),
    (Kind::Buffer, ListType::Compute, DEST, true, COMMON),
    (Kind::Shared, ListType::Direct, WRITES, false, COMMON),
    (Kind::Shared, ListType::Compute, SHADER, false, COMMON),
    // A plain texture on a copy queue.
    (Kind::Plain, ListType::Copy, DEST, true, COMMON),
    (Kind::Plain, ListType::Copy, SOURCE, false, COMMON),
    // Where reads were promoted.
    (Kind::Plain, ListType::Direct, SHADER, true, COMMON),
    (Kind::Plain, ListType::Compute, READS, true, COMMON),
    (Kind::Plain, ListType::Direct, COMMON, false, COMMON),
    // Else it stays: promoted writes, and what a transition brought.
    (Kind::Plain, ListType::Direct, DEST, true, DEST),
    (Kind::Plain, ListType::Compute, DEST, true, DEST),
    (Kind::Plain, ListType::Direct, DEST, false, DEST),
    (Kind::Plain, ListType::Direct, SHADER, false, SHADER),
    (Kind::Plain, ListType::Direct, READS, false, READS),
    (Kind::Plain, ListType::Compute, WRITES, false, WRITES),
    (Kind::Plain, ListType::Compute, SOURCE, false, SOURCE),
    (Kind::Plain, ListType::Direct, PIXEL, false, PIXEL),
];

#[test]
fn a_scope_leaves_the_state_that_the_table_says(rt: HostRuntime) {
    for (at, (kind, queue, state, promoted, want)) in DECAYS.iter().enumerate() {
        let now = Current {
            state: *state,
            promoted: *promoted,
        };
        let want = Current {
            state: *want,
            promoted: false,
        };
        assert!(rt; decay(*kind, *queue, now) == want, "row {at}");
    }
}

/// A state and whether an access brought it, the states before and after, and whether the transition is made.
const TRANSITIONS: [(State, bool, State, State, bool); 8] = [
    (COMMON, false, COMMON, DEST, true),
    (DEST, false, DEST, SOURCE, true),
    (DEST, true, DEST, SOURCE, true),
    (SHADERS, false, SHADERS, WRITES, true),
    (DEST, false, SOURCE, DEST, false),
    (SHADERS, false, SHADER, WRITES, false),
    (SHADER, false, SHADERS, WRITES, false),
    (COMMON, false, DEST, SOURCE, false),
];

#[test]
fn a_transition_is_made_exactly_from_its_state_before(rt: HostRuntime) {
    for (at, (state, promoted, before, after, made)) in TRANSITIONS.iter().enumerate() {
        let now = Current {
            state: *state,
            promoted: *promoted,
        };
        let want = Current {
            state: *after,
            promoted: false,
        };
        let want = if *made { Some(want) } else { None };
        assert!(rt; transition(now, *before, *after) == want, "row {at}");
    }
}

#[test]
fn a_plain_texture_that_a_copy_wrote_is_not_copied_from_in_the_next_scope(rt: HostRuntime) {
    let begun = Current {
        state: COMMON,
        promoted: false,
    };
    let written = Current {
        state: DEST,
        promoted: true,
    };
    let left = Current {
        state: DEST,
        promoted: false,
    };
    assert!(rt; promote(Kind::Plain, begun, DEST) == Some(written));
    assert!(rt; decay(Kind::Plain, ListType::Direct, written) == left);
    assert!(rt; promote(Kind::Plain, left, SOURCE).is_none());
    assert!(rt; decay(Kind::Buffer, ListType::Direct, written) == begun);
    assert!(rt; promote(Kind::Plain, begun, WRITES).is_none());
}
