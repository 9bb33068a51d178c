//! V6, V7 and V8.

use super::{
    ALL, ALL_COMMANDS, COMPUTE, COPY, COPY_WRITE, COPYING, EVERY_WRITE, HOST, HOST_READ, NONE, Row,
    SHADER_READ, Turn, break_their_rules,
};
use dx_base::Routine;
use std::test::Fail;
use vk_sync_rules::VkRule;
use vk_types::{Change, Count, Register, VkCommand, VkLayout};

/// A clear of what slot 3 holds.
const CLEAR_SLOT: VkCommand = clear!(Register::Slot { heap: 0, slot: 3 }, 7);

/// V6.
const UPDATES: [Row; 3] = [
    (
        &[
            Turn::Submit(0, 0, &[], &[CLEAR_SLOT], &[]),
            Turn::Pass(0, 0),
            Turn::Update(0, 3),
        ],
        &[],
        &[],
        Some(VkRule::V6),
    ),
    // also where the command is done
    (
        &[
            Turn::Submit(0, 0, &[], &[CLEAR_SLOT], &[]),
            Turn::Pass(0, 0),
            Turn::Run(0, 0, 1, &[0]),
            Turn::Update(0, 3),
        ],
        &[],
        &[],
        Some(VkRule::V6),
    ),
    // another slot, and the same one behind the end
    (
        &[
            Turn::Submit(0, 0, &[], &[CLEAR_SLOT], &[]),
            Turn::Pass(0, 0),
            Turn::Update(0, 2),
            Turn::Run(0, 0, 1, &[0]),
            Turn::Bump(0, 0),
            Turn::Update(0, 3),
        ],
        &[],
        &[],
        None,
    ),
];

/// A routine without invocations that uses words past an end.
const USE_NOTHING: VkCommand = dispatch!(
    Fill,
    Count::Number(0),
    Register::Unbound,
    Register::Fixed(6),
    Register::Constant(7)
);

/// A routine that uses the first two words of a view whose last two lie past an end.
const USE_FRONT: VkCommand = dispatch!(
    Fill,
    Count::Number(2),
    Register::Fixed(6),
    Register::Fixed(6),
    Register::Constant(7)
);

/// A layout change of a subresource that the image lacks.
const CHANGE_NO_SUB: VkCommand = VkCommand::Barrier {
    from: ALL_COMMANDS,
    made: NONE,
    to: ALL_COMMANDS,
    seen: NONE,
    change: Some(Change {
        image: 0,
        sub: Some(2),
        old: VkLayout::Undefined,
        new: VkLayout::General,
    }),
};

/// V7.
const ENDS: [Row; 12] = [
    (&[], &[copy!(1, 1, 0, 0, 4)], &[], Some(VkRule::V7)),
    (&[], &[copy!(1, 1, 0, 0, 3)], &[], None),
    // no words
    (&[], &[copy!(1, 5, 0, 0, 0)], &[], Some(VkRule::V7)),
    (&[], &[copy!(1, 4, 0, 0, 0)], &[], None),
    // past an end no access is made, so nothing else is asked
    (
        &[],
        &[COPY],
        &[Turn::Write(1, 1, &[0, 0, 0, 0])],
        Some(VkRule::V7),
    ),
    (&[Turn::Read(0, 1, 4)], &[], &[], Some(VkRule::V7)),
    (&[Turn::Read(0, 0, 4)], &[], &[], None),
    // views
    (&[], &[clear!(Register::Fixed(6), 7)], &[], Some(VkRule::V7)),
    (&[], &[USE_FRONT], &[], None),
    (&[], &[USE_NOTHING], &[], None),
    // subresources that are not there
    (
        &[],
        &[copy_image!(2, General, 0, General)],
        &[],
        Some(VkRule::V7),
    ),
    (&[], &[CHANGE_NO_SUB], &[], Some(VkRule::V7)),
];

/// V8.
const SUPPORT: [Row; 5] = [
    (
        &[],
        &[barrier!(COMPUTE, COPY_WRITE, ALL_COMMANDS, ALL)],
        &[],
        Some(VkRule::V8),
    ),
    (
        &[],
        &[barrier!(ALL_COMMANDS, EVERY_WRITE, COPYING, SHADER_READ)],
        &[],
        Some(VkRule::V8),
    ),
    // ALL_COMMANDS has no reads of the host
    (
        &[],
        &[barrier!(ALL_COMMANDS, EVERY_WRITE, ALL_COMMANDS, HOST_READ)],
        &[],
        Some(VkRule::V8),
    ),
    (
        &[],
        &[barrier!(ALL_COMMANDS, EVERY_WRITE, HOST, HOST_READ)],
        &[],
        None,
    ),
    (&[], &[barrier!(COPYING, EVERY_WRITE, HOST, ALL)], &[], None),
];

#[test]
fn a_slot_that_is_in_use_is_not_updated(rt: HostRuntime) -> Result<(), Fail> {
    break_their_rules(&rt, rt.alloc(), &UPDATES)?;
    Ok(())
}

#[test]
fn nothing_passes_an_end(rt: HostRuntime) -> Result<(), Fail> {
    break_their_rules(&rt, rt.alloc(), &ENDS)?;
    Ok(())
}

#[test]
fn stages_support_the_accesses_of_barriers(rt: HostRuntime) -> Result<(), Fail> {
    break_their_rules(&rt, rt.alloc(), &SUPPORT)?;
    Ok(())
}
