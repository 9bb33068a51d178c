//! V2 and V3.

use super::{ALL, ALL_COMMANDS, EVERY_WRITE, NONE, Row, TO_GENERAL, break_their_rules};
use dx_base::Routine;
use std::test::Fail;
use vk_sync_rules::VkRule;
use vk_types::{Change, Count, Register, VkCommand, VkLayout};

/// A routine that reads subresource 0 of the image.
const READ_IMAGE: VkCommand = dispatch!(
    Move,
    Count::Number(2),
    Register::Fixed(4),
    Register::Fixed(3),
    Register::Unbound
);

/// A routine that writes subresource 1 of the image.
const WRITE_IMAGE: VkCommand = dispatch!(
    Fill,
    Count::Number(2),
    Register::Unbound,
    Register::Fixed(5),
    Register::Constant(7)
);

/// A copy within the image, in GENERAL.
const COPY_GENERAL: VkCommand = copy_image!(1, General, 0, General);

/// V2.
const LAYOUTS: [Row; 8] = [
    (&[], &[COPY_GENERAL], &[], Some(VkRule::V2)),
    (&[], &[TO_GENERAL, COPY_GENERAL], &[], None),
    // a copy names another layout
    (
        &[],
        &[TO_GENERAL, copy_image!(1, General, 0, TransferSrcOptimal)],
        &[],
        Some(VkRule::V2),
    ),
    // a layout does not allow the access
    (
        &[],
        &[
            change!(ALL_COMMANDS, NONE, Undefined, TransferSrcOptimal),
            copy_image!(1, TransferSrcOptimal, 0, TransferSrcOptimal),
        ],
        &[],
        Some(VkRule::V2),
    ),
    (
        &[],
        &[
            change!(ALL_COMMANDS, NONE, Undefined, ShaderReadOnlyOptimal),
            READ_IMAGE,
        ],
        &[],
        None,
    ),
    (
        &[],
        &[
            change!(ALL_COMMANDS, NONE, Undefined, ShaderReadOnlyOptimal),
            WRITE_IMAGE,
        ],
        &[],
        Some(VkRule::V2),
    ),
    (&[], &[TO_GENERAL, WRITE_IMAGE], &[], None),
    // the layout is the current one, and not the one before a change
    (
        &[],
        &[
            change!(ALL_COMMANDS, NONE, Undefined, TransferDstOptimal),
            change!(ALL_COMMANDS, EVERY_WRITE, TransferDstOptimal, General),
            COPY_GENERAL,
        ],
        &[],
        None,
    ),
];

/// V3.
const OLD_LAYOUTS: [Row; 3] = [
    (
        &[],
        &[
            TO_GENERAL,
            change!(ALL_COMMANDS, EVERY_WRITE, TransferSrcOptimal, General),
        ],
        &[],
        Some(VkRule::V3),
    ),
    (
        &[],
        &[
            TO_GENERAL,
            change!(ALL_COMMANDS, EVERY_WRITE, General, TransferSrcOptimal),
        ],
        &[],
        None,
    ),
    (
        &[],
        &[
            TO_GENERAL,
            change!(ALL_COMMANDS, NONE, Undefined, TransferSrcOptimal),
        ],
        &[],
        None,
    ),
];

#[test]
fn the_current_layout_allows_each_access(rt: HostRuntime) -> Result<(), Fail> {
    break_their_rules(&rt, rt.alloc(), &LAYOUTS)?;
    Ok(())
}

#[test]
fn the_old_layout_is_the_current_one_or_undefined(rt: HostRuntime) -> Result<(), Fail> {
    break_their_rules(&rt, rt.alloc(), &OLD_LAYOUTS)?;
    Ok(())
}
