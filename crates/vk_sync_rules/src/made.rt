//! The accesses that commands make.

ghost use Rattle.std.specs.Prelude.{◌≡◌, ◌++◌, map, IfOk, OnOk};
ghost use Rattle.std.specs.List.{flat_map};
ghost use Rattle.vk_sync_rules.specs.Machines.{change_access, made_by_pieces, state_of};
ghost use Rattle.vk_sync_rules.specs.NextState.{changes_made, kept_by as kept_of, maker_of as maker_in};
ghost use Rattle.vk_sync_rules.specs.Pieces.{made_by as made_of, one_made};

use crate::access_sets::is_some;
use crate::accesses::{DoneAccess, Gain, Maker, Side};
use crate::command_rules::whole_sub;
use crate::commands::subs_of;
use crate::machine::VkMachine;
use crate::orders::sort_of;
use crate::pieces::Piece;
use crate::places::Place;
use crate::ranges::WordRange;
use crate::scopes::crossed;
use dx_base::{Memory, Seq};
use std::alloc::Global;
use vk_types::{Accesses, DevicePlan, Stages, VkCommand};

/// A copy of an access.
fn copied(alloc: Global, access: &DoneAccess) -> Result<DoneAccess, Memory>
    ensures { IfOk result (λ copy. copy ≡ access.now) }
{
    let gains = Seq::from_slice(alloc, access.gains.as_slice())?;
    let signals = Seq::from_slice(alloc, access.signals.as_slice())?;
    Ok(access.with(gains, signals, access.available))
}

/// What a command does to an access that was made.
fn kept_by(
    alloc: Global,
    queue: u32,
    place: Place,
    command: VkCommand,
    access: &DoneAccess,
) -> Result<DoneAccess, Memory>
    ensures { IfOk result (λ after. after ≡ kept_of queue place command access.now) }
{
    match command {
        VkCommand::Barrier {
            from,
            made,
            to,
            seen,
            ..
        } => {
            let first = Side {
                stages: from,
                accesses: made,
            };
            let second = Side {
                stages: to,
                accesses: seen,
            };
            crossed(alloc, access, queue, place, first, second)
        }
        VkCommand::Copy { .. } => copied(alloc, access),
        VkCommand::CopyImage { .. } => copied(alloc, access),
        VkCommand::CopyIn { .. } => copied(alloc, access),
        VkCommand::CopyOut { .. } => copied(alloc, access),
        VkCommand::Clear { .. } => copied(alloc, access),
        VkCommand::Dispatch { .. } => copied(alloc, access),
    }
}

/// What a command does to the accesses that were made.
pub(crate) fn all_kept(
    alloc: Global,
    accesses: &Seq<DoneAccess>,
    queue: u32,
    place: Place,
    command: VkCommand,
) -> Result<Seq<DoneAccess>, Memory>
    ensures { IfOk result (λ after. after ≡ map (kept_of queue place command) accesses.now) }
{
    let mut after = Seq::new(alloc);
    for access in accesses.as_slice() {
        after.push(kept_by(alloc, queue, place, command, access)?)?;
    }
    Ok(after)
}

/// Who makes the accesses of a command's pieces.
fn maker_of(queue: u32, place: Place, command: VkCommand) -> Maker
    ensures { result ≡ maker_in queue place command }
{
    Maker {
        queue,
        place,
        stage: sort_of(command).gives,
    }
}

/// Appends one access of a command; nothing where it does not make it, or there is no word.
fn push_one(
    alloc: Global,
    made: &mut Seq<DoneAccess>,
    maker: Maker,
    range: WordRange,
    writes: bool,
    access: Accesses,
) -> Result<(), Memory>
    ensures { OnOk result (made.new ≡ made.old ++ one_made maker range writes access) }
{
    if range.count != 0 && is_some(access) {
        made.push(DoneAccess {
            range,
            writes,
            access,
            by: Some(maker),
            gains: Seq::new(alloc),
            signals: Seq::new(alloc),
            available: false,
        })?;
    }
    Ok(())
}

/// Appends the accesses of a piece: its read, then its write.
#[tactic(auto, using(std::proofs::Common::append_assoc))]
fn push_piece(
    alloc: Global,
    made: &mut Seq<DoneAccess>,
    maker: Maker,
    piece: Piece,
) -> Result<(), Memory>
    ensures { OnOk result (made.new ≡ made.old ++ made_of maker piece) }
{
    push_one(alloc, made, maker, piece.range, false, piece.reads)?;
    push_one(alloc, made, maker, piece.range, true, piece.writes)
}

/// The accesses of pieces.
fn made_by(alloc: Global, maker: Maker, pieces: &[Piece]) -> Result<Seq<DoneAccess>, Memory>
    ensures { IfOk result (λ made. made ≡ flat_map (made_of maker) pieces.now) }
{
    let mut made = Seq::new(alloc);
    for piece in pieces {
        push_piece(alloc, &mut made, maker, *piece)?;
    }
    Ok(made)
}

/// The access of a change of one subresource.
fn change_of_sub(
    alloc: Global,
    plan: &DevicePlan,
    queue: u32,
    place: Place,
    to: Side,
    image: u32,
    sub: u32,
) -> Result<DoneAccess, Memory>
    ensures { IfOk result (λ made. made ≡ change_access plan.now queue place to.stages to.accesses image sub) }
{
    let mut gains = Seq::new(alloc);
    gains.push(Gain {
        queue,
        place,
        stages: to.stages,
        accesses: to.accesses,
        available: true,
    })?;
    Ok(DoneAccess {
        range: whole_sub(plan, image, sub),
        writes: true,
        access: Accesses(0),
        by: Some(Maker {
            queue,
            place,
            stage: Stages(0),
        }),
        gains,
        signals: Seq::new(alloc),
        available: true,
    })
}

/// The accesses of the changes of some subresources.
fn changes_of_subs(
    alloc: Global,
    plan: &DevicePlan,
    queue: u32,
    place: Place,
    to: Side,
    image: u32,
    subs: &[u32],
) -> Result<Seq<DoneAccess>, Memory>
    ensures { IfOk result (λ made. made ≡ map (change_access plan.now queue place to.stages to.accesses image) subs.now) }
{
    let mut made = Seq::new(alloc);
    for sub in subs {
        made.push(change_of_sub(alloc, plan, queue, place, to, image, *sub)?)?;
    }
    Ok(made)
}

/// Appends copies of accesses.
fn extend(alloc: Global, accesses: &mut Seq<DoneAccess>, more: &[DoneAccess]) -> Result<(), Memory>
    ensures { OnOk result (accesses.new ≡ accesses.old ++ more.now) }
{
    let mut rest = more;
    while let Some((access, behind)) = rest.split_first() {
        accesses.push(copied(alloc, access)?)?;
        rest = behind;
    }
    Ok(())
}

impl VkMachine {
    /// The accesses of the change of a barrier.
    fn changes_made(
        &self,
        queue: u32,
        place: Place,
        command: VkCommand,
    ) -> Result<Seq<DoneAccess>, Memory>
        ensures { IfOk result (λ made. made ≡ changes_made (state_of self.now) queue place command) }
    {
        match command {
            VkCommand::Barrier { change: None, .. } => Ok(Seq::new(self.alloc)),
            VkCommand::Barrier {
                to,
                seen,
                change: Some(change),
                ..
            } => {
                let subs = subs_of(self.alloc, &self.plan, change)?;
                let side = Side {
                    stages: to,
                    accesses: seen,
                };
                changes_of_subs(
                    self.alloc,
                    &self.plan,
                    queue,
                    place,
                    side,
                    change.image,
                    subs.as_slice(),
                )
            }
            VkCommand::Copy { .. } => Ok(Seq::new(self.alloc)),
            VkCommand::CopyImage { .. } => Ok(Seq::new(self.alloc)),
            VkCommand::CopyIn { .. } => Ok(Seq::new(self.alloc)),
            VkCommand::CopyOut { .. } => Ok(Seq::new(self.alloc)),
            VkCommand::Clear { .. } => Ok(Seq::new(self.alloc)),
            VkCommand::Dispatch { .. } => Ok(Seq::new(self.alloc)),
        }
    }

    /// The accesses that a command with these pieces makes at a place; one that passes an end makes none.
    fn made_at(
        &self,
        queue: u32,
        place: Place,
        outside: bool,
        pieces: &[Piece],
        command: VkCommand,
    ) -> Result<Seq<DoneAccess>, Memory>
        ensures { IfOk result (λ made. made ≡ made_by_pieces (state_of self.now) queue place outside pieces.now command) }
    {
        if outside {
            return Ok(Seq::new(self.alloc));
        }
        let mut made = self.changes_made(queue, place, command)?;
        let others = made_by(self.alloc, maker_of(queue, place, command), pieces)?;
        extend(self.alloc, &mut made, others.as_slice())?;
        Ok(made)
    }

    /// All accesses after a command with these pieces.
    pub(crate) fn accesses_after(
        &self,
        queue: u32,
        place: Place,
        outside: bool,
        pieces: &[Piece],
        command: VkCommand,
    ) -> Result<Seq<DoneAccess>, Memory>
        ensures { IfOk result (λ after. after ≡ map (kept_of queue place command) self.now.accesses ++ made_by_pieces (state_of self.now) queue place outside pieces.now command) }
    {
        let mut accesses = all_kept(self.alloc, &self.accesses, queue, place, command)?;
        let made = self.made_at(queue, place, outside, pieces, command)?;
        extend(self.alloc, &mut accesses, made.as_slice())?;
        Ok(accesses)
    }
}
