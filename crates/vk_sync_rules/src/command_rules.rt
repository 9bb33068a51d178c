//! The rules of commands.

ghost use Rattle.std.specs.Prelude.{◌≡◌, ◌||◌, not, IfOk};
ghost use Rattle.std.specs.List.{list_all, list_any};
ghost use Rattle.vk_sync_rules.specs.declared.accesses.DoneAccess.{DoneAccess};
ghost use Rattle.vk_sync_rules.specs.DoneAccesses.{in_scope};
ghost use Rattle.vk_sync_rules.specs.Machines.{rule_by, state_of};
ghost use Rattle.vk_sync_rules.specs.NextState.{is_undefined as is_undefined_layout, whole_sub as words_of_sub};
ghost use Rattle.vk_sync_rules.specs.Ranges.{same_resource};
ghost use Rattle.vk_sync_rules.specs.Rules.{allows_all as does_allow_all, collide, follows as does_follow, is_change_in_order as is_change_behind, is_change_unordered as is_change_too_early, is_in_order as is_piece_in_order, is_old as is_old_layout, is_unsupported as names_unsupported, is_wrong_change as changes_wrong, is_wrong_in as is_wrong_there, is_wrong_layout as has_wrong_layout, layout_of as current_layout, layout_place as place_of_layout, of_each, same_layout, some_collide};

use crate::access_sets::is_some;
use crate::accesses::{DoneAccess, Side};
use crate::commands::{change_of, subs_of};
use crate::last_tests::{WriteTest, each_last};
use crate::layouts::{is_same_layout, is_undefined, layout_at};
use crate::machine::VkMachine;
use crate::orders::sort_of;
use crate::pieces::Piece;
use crate::places::Place;
use crate::ranges::{VkResource, WordRange};
use crate::rules::VkRule;
use crate::sizes::words_in;
use dx_base::Memory;
use vk_types::{Access, Accesses, Change, DevicePlan, Stages, VkCommand, VkLayout, supports};

/// Where a command is done: its queue, the stages that it waits for, and its place.
#[derive(Clone, Copy, Debug, PartialEq, Eq)]
pub(crate) struct Site {
    pub queue: u32,
    pub stages: Stages,
    pub place: Place,
}

/// A command sees a write, or does not read.
#[derive(Clone, Copy)]
struct IsSeen {
    site: Site,
    reads: Accesses,
}

impl WriteTest for IsSeen {
    ghost use Rattle.std.specs.Prelude.{◌||◌, not};
    ghost use Rattle.vk_sync_rules.specs.AccessSets.{is_some_access};
    ghost use Rattle.vk_sync_rules.specs.DoneAccesses.{sees};

    ghost test = { λ it w. not (is_some_access it.reads) || sees it.site.queue it.site.stages it.reads it.site.place w };

    fn holds(&self, write: &DoneAccess) -> bool {
        let side = Side {
            stages: self.site.stages,
            accesses: self.reads,
        };
        !is_some(self.reads) || write.is_seen(self.site.queue as u64, side, self.site.place)
    }
}

/// A write is available, or a command does not write.
#[derive(Clone, Copy)]
struct IsBehind {
    writes: Accesses,
}

impl WriteTest for IsBehind {
    ghost use Rattle.std.specs.Prelude.{◌||◌, not};
    ghost use Rattle.vk_sync_rules.specs.AccessSets.{is_some_access};

    ghost test = { λ it w. not (is_some_access it.writes) || w.available };

    fn holds(&self, write: &DoneAccess) -> bool {
        !is_some(self.writes) || write.available
    }
}

/// A write is available, or a barrier makes it so.
#[derive(Clone, Copy)]
struct IsMadeAvailable {
    queue: u32,
    from: Side,
    place: Place,
}

impl WriteTest for IsMadeAvailable {
    ghost use Rattle.std.specs.Prelude.{◌||◌};
    ghost use Rattle.vk_sync_rules.specs.DoneAccesses.{is_made_available};

    ghost test = { λ it w. w.available || is_made_available it.queue it.place it.from.stages it.from.accesses w };

    fn holds(&self, write: &DoneAccess) -> bool {
        write.available || write.is_made_available(self.queue, self.from, self.place)
    }
}

/// Whether a piece is ordered after an access, or need not be.
fn follows(site: Site, piece: Piece, access: &DoneAccess) -> bool
    ensures { result ≡ does_follow site.queue site.stages site.place piece access.now }
{
    !(piece.range.overlaps(access.range) && (piece.does_write() || access.writes))
        || access.is_ordered(site.queue, site.stages, site.place)
}

/// Whether a piece is ordered after each access.
fn follows_all(site: Site, piece: Piece, accesses: &[DoneAccess]) -> bool
    ensures { result ≡ list_all (does_follow site.queue site.stages site.place piece) accesses.now }
{
    accesses.iter().all(|access| follows(site, piece, access))
}

/// Whether a piece comes after all that was made; it reads what it sees, and writes behind what is available.
fn is_in_order(accesses: &[DoneAccess], site: Site, piece: Piece) -> bool
    ensures { result ≡ is_piece_in_order accesses.now site.queue site.stages site.place piece }
{
    let seen = IsSeen {
        site,
        reads: piece.reads,
    };
    let behind = IsBehind {
        writes: piece.writes,
    };
    follows_all(site, piece, accesses)
        && (each_last(accesses, piece.range, &seen) && each_last(accesses, piece.range, &behind))
}

/// Whether each piece comes after all that was made.
fn are_in_order(accesses: &[DoneAccess], site: Site, pieces: &[Piece]) -> bool
    ensures { result ≡ list_all (is_piece_in_order accesses.now site.queue site.stages site.place) pieces.now }
{
    pieces
        .iter()
        .all(|piece| is_in_order(accesses, site, *piece))
}

/// Whether two registers, or two rows or sides of a copy, share a word that one of them writes.
fn do_collide(one: Piece, other: Piece) -> bool
    ensures { result ≡ collide one other }
{
    one.range.overlaps(other.range) && (one.does_write() || other.does_write())
}

/// Whether a piece shares a word with one of others that one of the two writes.
fn collides_with(one: Piece, others: &[Piece]) -> bool
    ensures { result ≡ list_any (collide one) others.now }
{
    others.iter().any(|other| do_collide(one, *other))
}

/// Whether two of some pieces share a word that one of them writes.
fn do_some_collide(pieces: &[Piece]) -> bool
    ensures { result ≡ some_collide pieces.now }
{
    let mut rest = pieces;
    while let Some((piece, behind)) = rest.split_first() {
        if collides_with(*piece, behind) {
            return true;
        }
        rest = behind;
    }
    false
}

/// The words of a subresource.
pub(crate) fn whole_sub(plan: &DevicePlan, image: u32, sub: u32) -> WordRange
    ensures { result ≡ words_of_sub plan.now image sub }
{
    let resource = VkResource::Image(image, sub);
    WordRange {
        resource,
        first: 0,
        count: words_in(plan, resource),
    }
}

/// Whether each access of a resource is in the first scope of a barrier.
fn are_in_scope(
    accesses: &[DoneAccess],
    queue: u32,
    from: Stages,
    place: Place,
    resource: VkResource,
) -> bool
    ensures { result ≡ list_all (λ (r : DoneAccess). not (same_resource resource r.range.resource) || in_scope queue from place r) accesses.now }
{
    accesses.iter().all(|access| {
        !resource.is_same(access.range.resource) || access.is_in_scope(queue, from, place)
    })
}

/// All names of accesses.
const ACCESSES: [Access; 9] = [
    Access::MemoryRead,
    Access::MemoryWrite,
    Access::ShaderStorageRead,
    Access::ShaderStorageWrite,
    Access::ShaderRead,
    Access::UniformRead,
    Access::TransferRead,
    Access::TransferWrite,
    Access::HostRead,
];

/// Whether a layout allows each access of a set.
fn allows_all(layout: VkLayout, accesses: Accesses) -> bool
    ensures { result ≡ does_allow_all layout accesses }
{
    ACCESSES
        .iter()
        .all(|access| !accesses.has(*access) || layout.allows(*access))
}

/// Whether a layout is the one that is named, if one is.
fn is_named(layout: VkLayout, named: Option<VkLayout>) -> bool
    ensures { result ≡ of_each (same_layout layout) named }
{
    match named {
        None => true,
        Some(named) => is_same_layout(layout, named),
    }
}

/// Whether a barrier names an access that none of its stages on that side supports.
fn is_unsupported(command: VkCommand) -> bool
    ensures { result ≡ names_unsupported command }
{
    match command {
        VkCommand::Barrier {
            from,
            made,
            to,
            seen,
            ..
        } => { !(supports(from, made) && supports(to, seen)) }
        VkCommand::Copy { .. } => false,
        VkCommand::CopyImage { .. } => false,
        VkCommand::CopyIn { .. } => false,
        VkCommand::CopyOut { .. } => false,
        VkCommand::Clear { .. } => false,
        VkCommand::Dispatch { .. } => false,
    }
}

impl VkMachine {
    /// Whether the layout change of a subresource comes after all that was made of it.
    fn is_change_in_order(&self, queue: u32, from: Side, place: Place, image: u32, sub: u32) -> bool
        ensures { result ≡ is_change_behind (state_of self.now) queue from.stages from.accesses place image sub }
    {
        let accesses = self.accesses.as_slice();
        let test = IsMadeAvailable { queue, from, place };
        are_in_scope(
            accesses,
            queue,
            from.stages,
            place,
            VkResource::Image(image, sub),
        ) && each_last(accesses, whole_sub(&self.plan, image, sub), &test)
    }

    /// Whether the layout change of each of some subresources does.
    fn are_changes_in_order(
        &self,
        queue: u32,
        from: Side,
        place: Place,
        image: u32,
        subs: &[u32],
    ) -> bool
        ensures { result ≡ list_all (is_change_behind (state_of self.now) queue from.stages from.accesses place image) subs.now }
    {
        subs.iter().all(|sub| self.is_change_in_order(queue, from, place, image, *sub))
    }

    /// Whether the change of a barrier is not in order.
    fn is_change_unordered(
        &self,
        queue: u32,
        place: Place,
        command: VkCommand,
    ) -> Result<bool, Memory>
        ensures { IfOk result (λ is. is ≡ is_change_too_early (state_of self.now) queue place command) }
    {
        match command {
            VkCommand::Barrier { change: None, .. } => Ok(false),
            VkCommand::Barrier {
                from,
                made,
                change: Some(change),
                ..
            } => {
                let subs = subs_of(self.alloc, &self.plan, change)?;
                let side = Side {
                    stages: from,
                    accesses: made,
                };
                Ok(!self.are_changes_in_order(queue, side, place, change.image, subs.as_slice()))
            }
            VkCommand::Copy { .. } => Ok(false),
            VkCommand::CopyImage { .. } => Ok(false),
            VkCommand::CopyIn { .. } => Ok(false),
            VkCommand::CopyOut { .. } => Ok(false),
            VkCommand::Clear { .. } => Ok(false),
            VkCommand::Dispatch { .. } => Ok(false),
        }
    }

    /// Whether the layout of the image of a piece does not allow its accesses, or is not the one that the copy names.
    fn is_wrong_in(&self, piece: Piece, resource: VkResource) -> bool
        ensures { result ≡ is_wrong_there (state_of self.now) piece resource }
    {
        match resource {
            VkResource::Buffer(_) => false,
            VkResource::Image(image, sub) => {
                let layout = layout_at(&self.layouts, image, sub);
                !(allows_all(layout, piece.reads) && allows_all(layout, piece.writes))
                    || !is_named(layout, piece.named)
            }
        }
    }

    /// Whether a piece with some words has a wrong layout.
    fn is_wrong_layout(&self, piece: Piece) -> bool
        ensures { result ≡ has_wrong_layout (state_of self.now) piece }
    {
        !(piece.range.count == 0) && self.is_wrong_in(piece, piece.range.resource)
    }

    /// Whether some piece has a wrong layout.
    fn has_wrong_layouts(&self, pieces: &[Piece]) -> bool
        ensures { result ≡ list_any (has_wrong_layout (state_of self.now)) pieces.now }
    {
        pieces.iter().any(|piece| self.is_wrong_layout(*piece))
    }

    /// Whether the old layout of a change is UNDEFINED or the current one.
    fn is_old(&self, change: Change, sub: u32) -> bool
        ensures { result ≡ is_old_layout (state_of self.now) change sub }
    {
        is_undefined(change.old)
            || is_same_layout(change.old, layout_at(&self.layouts, change.image, sub))
    }

    /// Whether the old layout of a change is that of each of some subresources.
    fn are_old(&self, change: Change, subs: &[u32]) -> bool
        ensures { result ≡ list_all (is_old_layout (state_of self.now) change) subs.now }
    {
        subs.iter().all(|sub| self.is_old(change, *sub))
    }

    /// Whether the old layout of a command's change is neither UNDEFINED nor the current one.
    fn is_wrong_change(&self, command: VkCommand) -> Result<bool, Memory>
        ensures { IfOk result (λ is. is ≡ changes_wrong (state_of self.now) command) }
    {
        match change_of(command) {
            None => Ok(false),
            Some(change) => {
                let subs = subs_of(self.alloc, &self.plan, change)?;
                Ok(!self.are_old(change, subs.as_slice()))
            }
        }
    }

    /// The least rule that a command with these pieces breaks, if it breaks one.
    pub(crate) fn rule_of_command(
        &self,
        queue: u32,
        place: Place,
        outside: bool,
        pieces: &[Piece],
        command: VkCommand,
    ) -> Result<Option<VkRule>, Memory>
        ensures { IfOk result (λ rule. rule ≡ rule_by (state_of self.now) queue place outside pieces.now command) }
    {
        if outside {
            return Ok(Some(VkRule::V7));
        }
        let site = Site {
            queue,
            stages: sort_of(command).takes,
            place,
        };
        let is_early = self.is_change_unordered(queue, place, command)?;
        let is_wrong = self.is_wrong_change(command)?;
        if is_early
            || (do_some_collide(pieces) || !are_in_order(self.accesses.as_slice(), site, pieces))
        {
            Ok(Some(VkRule::V1))
        } else if self.has_wrong_layouts(pieces) {
            Ok(Some(VkRule::V2))
        } else if is_wrong {
            Ok(Some(VkRule::V3))
        } else if is_unsupported(command) {
            Ok(Some(VkRule::V8))
        } else {
            Ok(None)
        }
    }
}
