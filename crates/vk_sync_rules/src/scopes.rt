//! What submissions, passes, ends and barriers do to the accesses that were made.

ghost use Rattle.std.specs.Prelude.{◌≡◌, ◌∷◌, if◌then◌else◌, IfOk, map};
ghost use Rattle.vk_sync_rules.specs.DoneAccesses.{start_of as start_of_batch, gain_where, across, after_submit, after_pass, after_bump};
ghost use Rattle.vk_sync_rules.specs.AccessSets.{all_stages, all_accesses};

use crate::accesses::{DoneAccess, Gain, Side};
use crate::places::Place;
use dx_base::{Memory, Seq};
use std::alloc::Global;
use vk_types::{Accesses, Batch, Stages};

/// The start of a batch.
pub(crate) fn start_of(number: u64) -> Place
    ensures { result ≡ start_of_batch number }
{
    Place { number, index: 0 }
}

/// Every stage but HOST, with every access.
const ALL: Side = Side {
    stages: Stages::ALL_COMMANDS,
    accesses: Accesses(3),
};

/// The gains of an access, with one more in front where a test holds.
fn gains_with(
    alloc: Global,
    access: &DoneAccess,
    gains_one: bool,
    one: Gain,
) -> Result<Seq<Gain>, Memory>
    ensures { IfOk result (λ gains. gains ≡ (if gains_one then one ∷ access.now.gains else access.now.gains)) }
{
    if !gains_one {
        return Seq::from_slice(alloc, access.gains.as_slice());
    }
    let mut gains = Seq::new(alloc);
    gains.push(one)?;
    gains.extend_from_slice(access.gains.as_slice())?;
    Ok(gains)
}

/// An access that gains a scope where a test holds, and is then `available`.
fn gained(
    alloc: Global,
    access: &DoneAccess,
    available: bool,
    gains_one: bool,
    queue: u32,
    place: Place,
    to: Side,
) -> Result<DoneAccess, Memory>
    ensures { IfOk result (λ after. after ≡ gain_where gains_one queue place to.stages to.accesses (record access.now { available = available })) }
{
    let one = Gain {
        queue,
        place,
        stages: to.stages,
        accesses: to.accesses,
        available: access.writes && available,
    };
    let gains = gains_with(alloc, access, gains_one, one)?;
    let signals = Seq::from_slice(alloc, access.signals.as_slice())?;
    Ok(access.with(gains, signals, available))
}

/// An access after a barrier at a place of a queue.
pub(crate) fn crossed(
    alloc: Global,
    access: &DoneAccess,
    queue: u32,
    place: Place,
    from: Side,
    to: Side,
) -> Result<DoneAccess, Memory>
    ensures { IfOk result (λ after. after ≡ across queue place from.stages from.accesses to.stages to.accesses access.now) }
{
    let made = access.is_made_available(queue, from, place);
    let available = access.available || (made && access.writes);
    let gains_one = access.is_in_scope(queue, from.stages, place);
    gained(alloc, access, available, gains_one, queue, place, to)
}

/// The accesses after a barrier at a place of a queue.
pub(crate) fn all_crossed(
    alloc: Global,
    accesses: &Seq<DoneAccess>,
    queue: u32,
    place: Place,
    from: Side,
    to: Side,
) -> Result<Seq<DoneAccess>, Memory>
    ensures { IfOk result (λ after. after ≡ map (across queue place from.stages from.accesses to.stages to.accesses) accesses.now) }
{
    let mut after = Seq::new(alloc);
    for access in accesses.as_slice() {
        after.push(crossed(alloc, access, queue, place, from, to)?)?;
    }
    Ok(after)
}

/// The accesses after a submission.
pub(crate) fn all_submitted(
    alloc: Global,
    accesses: &Seq<DoneAccess>,
    batch: &Batch,
) -> Result<Seq<DoneAccess>, Memory>
    ensures { IfOk result (λ after. after ≡ map (after_submit batch.now.queue batch.now.number) accesses.now) }
{
    let mut after = Seq::new(alloc);
    for access in accesses.as_slice() {
        let start = start_of(batch.number);
        let is_host = access.is_host();
        after.push(gained(
            alloc,
            access,
            access.available,
            is_host,
            batch.queue,
            start,
            ALL,
        )?)?;
    }
    Ok(after)
}

/// The accesses after a pass of a batch with these waits.
pub(crate) fn all_passed(
    alloc: Global,
    accesses: &Seq<DoneAccess>,
    queue: u32,
    number: u64,
    waits: &[(u32, u64)],
) -> Result<Seq<DoneAccess>, Memory>
    ensures { IfOk result (λ after. after ≡ map (after_pass queue number waits.now) accesses.now) }
{
    let mut after = Seq::new(alloc);
    for access in accesses.as_slice() {
        let start = start_of(number);
        let covered = access.is_covered(waits);
        after.push(gained(alloc, access, access.available, covered, queue, start, ALL)?)?;
    }
    Ok(after)
}

/// An access after the end of a batch with these sets.
fn ended(
    alloc: Global,
    access: &DoneAccess,
    queue: u32,
    number: u64,
    sets: &[(u32, u64)],
) -> Result<DoneAccess, Memory>
    ensures { IfOk result (λ after. after ≡ after_bump queue number sets.now access.now) }
{
    let gains = Seq::from_slice(alloc, access.gains.as_slice())?;
    if !access.is_ended(queue, number) {
        let signals = Seq::from_slice(alloc, access.signals.as_slice())?;
        return Ok(access.with(gains, signals, access.available));
    }
    let mut signals = Seq::from_slice(alloc, sets)?;
    signals.extend_from_slice(access.signals.as_slice())?;
    Ok(access.with(gains, signals, access.available || access.writes))
}

/// The accesses after the end of a batch with these sets.
pub(crate) fn all_ended(
    alloc: Global,
    accesses: &Seq<DoneAccess>,
    queue: u32,
    number: u64,
    sets: &[(u32, u64)],
) -> Result<Seq<DoneAccess>, Memory>
    ensures { IfOk result (λ after. after ≡ map (after_bump queue number sets.now) accesses.now) }
{
    let mut after = Seq::new(alloc);
    for access in accesses.as_slice() {
        after.push(ended(alloc, access, queue, number, sets)?)?;
    }
    Ok(after)
}
