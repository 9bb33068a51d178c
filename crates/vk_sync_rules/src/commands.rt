//! What commands touch, and where they pass an end.

ghost use Rattle.std.specs.Prelude.{◌≡◌, ◌++◌, IfOk, OnOk};
ghost use Rattle.std.specs.List.{flat_map, list_all, list_any};
ghost use Rattle.vk_sync_rules.specs.declared.ranges.VkResource.TheVariants.{Image};
ghost use Rattle.vk_sync_rules.specs.Commands.{change_of as change_in, lacks_sub as does_lack, pieces as pieces_by, pieces_of_registers, subs_of as subs_by};
ghost use Rattle.vk_sync_rules.specs.Copies.{sides_of};
ghost use Rattle.vk_sync_rules.specs.Machines.{passes_end_by};
ghost use Rattle.vk_sync_rules.specs.Pieces.{is_outside as lies_outside};
ghost use Rattle.vk_sync_rules.specs.Sizes.{is_there as is_in};

use crate::copies::{CopiedRow, copied_rows, push_sides};
use crate::dispatches::{push_dispatch, views_of};
use crate::pieces::Piece;
use crate::ranges::VkResource;
use crate::registers::words_of_register;
use crate::sizes::{is_there, subs_in};
use crate::slots::slots_of;
use dx_base::{Class, Memory, Seq};
use std::alloc::Global;
use vk_types::{Accesses, Change, DevicePlan, VkCommand};

/// The sides of copied rows.
fn pieces_of_rows(alloc: Global, rows: &[CopiedRow]) -> Result<Seq<Piece>, Memory>
    ensures { IfOk result (λ pieces. pieces ≡ flat_map sides_of rows.now) }
{
    let mut pieces = Seq::new(alloc);
    for row in rows {
        push_sides(&mut pieces, *row)?;
    }
    Ok(pieces)
}

/// Appends the views of a clear and of a dispatch by these loaded answers.
fn push_registers(
    pieces: &mut Seq<Piece>,
    plan: &DevicePlan,
    answers: &[u32],
    command: VkCommand,
) -> Result<(), Memory>
    ensures { OnOk result (pieces.new ≡ pieces.old ++ pieces_of_registers plan.now answers.now command) }
{
    let slots = slots_of(command);
    match command {
        VkCommand::Barrier { .. } => Ok(()),
        VkCommand::Copy { .. } => Ok(()),
        VkCommand::CopyImage { .. } => Ok(()),
        VkCommand::CopyIn { .. } => Ok(()),
        VkCommand::CopyOut { .. } => Ok(()),
        VkCommand::Clear { target, .. } => {
            match words_of_register(plan, slots, answers, Class::Uav, target) {
                None => Ok(()),
                Some(range) => pieces.push(Piece {
                    range,
                    reads: Accesses(0),
                    writes: Accesses::SHADER_STORAGE_WRITE,
                    named: None,
                }),
            }
        }
        VkCommand::Dispatch {
            routine,
            count,
            t0,
            t1,
            u0,
            b0,
        } => push_dispatch(
            pieces,
            routine,
            count,
            views_of(plan, slots, answers, t0, t1, u0, b0),
        ),
    }
}

/// What a command touches by these loaded answers; a barrier touches nothing by pieces.
pub(crate) fn pieces_of(
    alloc: Global,
    plan: &DevicePlan,
    answers: &[u32],
    command: VkCommand,
) -> Result<Seq<Piece>, Memory>
    ensures { IfOk result (λ pieces. pieces ≡ pieces_by plan.now answers.now command) }
{
    let rows = copied_rows(alloc, plan, command)?;
    let mut pieces = pieces_of_rows(alloc, rows.as_slice())?;
    push_registers(&mut pieces, plan, answers, command)?;
    Ok(pieces)
}

/// The layout change of a barrier, if it has one.
pub(crate) fn change_of(command: VkCommand) -> Option<Change>
    ensures { result ≡ change_in command }
{
    match command {
        VkCommand::Barrier { change, .. } => change,
        VkCommand::Copy { .. } => None,
        VkCommand::CopyImage { .. } => None,
        VkCommand::CopyIn { .. } => None,
        VkCommand::CopyOut { .. } => None,
        VkCommand::Clear { .. } => None,
        VkCommand::Dispatch { .. } => None,
    }
}

/// The subresources that a change names. More than 2^32 are want of memory.
#[tactic(auto, using(crate::proofs::PieceSteps::up_to_next))]
pub(crate) fn subs_of(alloc: Global, plan: &DevicePlan, change: Change) -> Result<Seq<u32>, Memory>
    ensures { IfOk result (λ subs. subs ≡ subs_by plan.now change) }
{
    let mut subs = Seq::new(alloc);
    if let Some(sub) = change.sub {
        subs.push(sub)?;
        return Ok(subs);
    }
    let count = subs_in(plan, change.image);
    if count > u32::MAX as u64 {
        return Err(Memory);
    }
    for sub in 0..count as u32 {
        subs.push(sub)?;
    }
    Ok(subs)
}

/// Whether an image has each of some subresources.
fn are_there(plan: &DevicePlan, image: u32, subs: &[u32]) -> bool
    ensures { result ≡ list_all (λ s. is_in plan.now (Image image s)) subs.now }
{
    subs.iter()
        .all(|sub| is_there(plan, VkResource::Image(image, *sub)))
}

/// Whether a change names a subresource that its image lacks.
fn lacks_sub(alloc: Global, plan: &DevicePlan, change: Change) -> Result<bool, Memory>
    ensures { IfOk result (λ lacks. lacks ≡ does_lack plan.now change) }
{
    let subs = subs_of(alloc, plan, change)?;
    Ok(!are_there(plan, change.image, subs.as_slice()))
}

/// Whether some piece lies beyond an end.
fn are_some_outside(plan: &DevicePlan, pieces: &[Piece]) -> bool
    ensures { result ≡ list_any (lies_outside plan.now) pieces.now }
{
    pieces.iter().any(|piece| piece.is_outside(plan))
}

/// Whether a command with this change and these pieces passes an end.
pub(crate) fn passes_end(
    alloc: Global,
    plan: &DevicePlan,
    change: Option<Change>,
    pieces: &[Piece],
) -> Result<bool, Memory>
    ensures { IfOk result (λ outside. outside ≡ passes_end_by plan.now change pieces.now) }
{
    match change {
        None => Ok(are_some_outside(plan, pieces)),
        Some(change) => lacks_sub(alloc, plan, change),
    }
}
