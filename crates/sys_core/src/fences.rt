//! The applied updates of fences: the starting value, then host signals and completed signals in order.

ghost use Rattle.std.specs.Prelude.{◌≡◌, ◌-◌, ◌++◌, ◌∷◌, [], map, length, IfOk, OnOk};
ghost use Rattle.dx_base.specs.Lists.{changed_at};
ghost use Rattle.d3d_machine.specs.Fences.{is_met};
ghost use Rattle.sys_core.specs.Parts.{updates_in, HasRoomAt, KeepsRoom};
ghost use Rattle.d3d_machine.specs.Past.{updates_at, last_of};

use crate::parts::Armed;
use dx_base::{FenceId, Memory, Room, Seq};
use std::alloc::Global;

/// The updates of each fence, of which the first is its starting value.
pub(crate) fn starting_fences(alloc: Global, values: &[u64]) -> Result<Seq<Room<u64>>, Memory>
    ensures { IfOk result (λ fences. map updates_in fences ≡ map (λ v. v ∷ []) values.now) }
{
    let mut fences = Seq::new(alloc);
    for value in values {
        fences.push(updates_from(alloc, *value)?)?;
    }
    Ok(fences)
}

/// The updates of a fence that has its starting value alone.
fn updates_from(alloc: Global, value: u64) -> Result<Room<u64>, Memory>
    ensures { IfOk result (λ updates. updates.items ≡ value ∷ []) }
{
    let mut updates = Room::new(alloc);
    updates.reserve()?;
    updates.push_reserved(value);
    Ok(updates)
}

/// Makes room for one update of a fence, where there is that fence.
#[tactic(auto, using(crate::proofs::Updates::room_made, crate::proofs::Updates::room_past, crate::proofs::Updates::room_kept, crate::proofs::Updates::room_same, dx_base::proofs::Lists::map_write_same))]
pub(crate) fn reserve_update_of(fences: &mut Seq<Room<u64>>, fence: FenceId) -> Result<(), Memory>
    ensures room { OnOk result (HasRoomAt fences.new fence.0) }
    ensures kept { OnOk result (KeepsRoom fences.old fences.new) }
    ensures same { map updates_in fences.new ≡ map updates_in fences.old }
{
    let at = fence.0 as usize;
    if at < fences.len() {
        return fences.at_mut(at).reserve();
    }
    Ok(())
}

/// A fence takes a value, where there is that fence. There is room for it.
#[tactic(auto, using(crate::proofs::Updates::room_lent, dx_base::proofs::Lists::map_write))]
pub(crate) fn push_update(fences: &mut Seq<Room<u64>>, fence: FenceId, value: u64)
    requires { HasRoomAt fences.old fence.0 }
    ensures { map updates_in fences.new ≡ changed_at (λ us. us ++ value ∷ []) fence.0 (map updates_in fences.old) }
{
    let at = fence.0 as usize;
    if at < fences.len() {
        fences.at_mut(at).push_reserved(value);
    }
}

/// The value of a fence: its last update; 0 where there is no such fence.
#[tactic(auto, using(crate::proofs::Updates::updates_of_none, crate::proofs::Updates::updates_of_some))]
pub(crate) fn value_of(fences: &Seq<Room<u64>>, fence: FenceId) -> u64
    ensures { result ≡ last_of (updates_at (map updates_in fences.now) fence.0) }
{
    match fences.get(fence.0 as usize) {
        Some(updates) => last_update(updates),
        None => 0,
    }
}

/// The last of a fence's updates; 0 where there is none.
fn last_update(updates: &Room<u64>) -> u64
    ensures { result ≡ last_of updates.now.items }
{
    let values = updates.as_slice();
    match values.get(values.len().saturating_sub(1)) {
        Some(value) => *value,
        None => 0,
    }
}

/// The last update of each fence.
pub(crate) fn last_values(alloc: Global, fences: &[Room<u64>]) -> Result<Seq<u64>, Memory>
    ensures { IfOk result (λ values. values ≡ map (λ updates. last_of updates.items) fences.now) }
{
    let mut values = Seq::new(alloc);
    for updates in fences {
        values.push(last_update(updates))?;
    }
    Ok(values)
}

/// The place of the last update of a fence.
#[tactic(auto, using(crate::proofs::Updates::updates_of_none, crate::proofs::Updates::updates_of_some))]
pub(crate) fn last_place(fences: &Seq<Room<u64>>, fence: FenceId) -> usize
    ensures { result ≡ length (updates_at (map updates_in fences.now) fence.0) - 1 }
{
    match fences.get(fence.0 as usize) {
        Some(updates) => updates.len().saturating_sub(1),
        None => 0,
    }
}

/// Whether an update of a wait's fence that is still to be looked at is at least its value.
#[tactic(auto, using(crate::proofs::Updates::updates_of_none, crate::proofs::Updates::updates_of_some))]
pub(crate) fn is_met_by(fences: &Seq<Room<u64>>, armed: Armed) -> bool
    ensures { result ≡ is_met (updates_at (map updates_in fences.now) armed.fence.0) armed.seen armed.value }
{
    match fences.get(armed.fence.0 as usize) {
        Some(updates) => suffices_from(updates.as_slice(), armed.seen, armed.value),
        None => suffices_from(&[], armed.seen, armed.value),
    }
}

/// Whether an update from that place on is at least the value.
fn suffices_from(updates: &[u64], since: usize, value: u64) -> bool
    ensures { result ≡ is_met updates.now since value }
{
    if since > updates.len() {
        return false;
    }
    let (_, later) = updates.split_at(since);
    later.iter().any(|update| *update >= value)
}
