//! The index of an update list: each entry knows the greatest value of a run of updates that ends with it.

ghost use Rattle.std.specs.Prelude.{◌≡◌, ◌≤◌, ◌<◌, ◌++◌, ◌∷◌, [], length, drop, None, IfNone, IfSome, slice_get};
ghost use Rattle.std.specs.VecDeque.{deque_len};
ghost use Rattle.fence_timeline.specs.Sufficient.{first_sufficient};
ghost use Rattle.fence_timeline.specs.Runs.{updates_in, IsIndexed, between, greatest, StartsRun, IsPeak};

use crate::update::Update;
use std::collections::VecDeque;

/// An update, and the greatest value among the last so many updates up to it.
#[derive(Clone, Copy, Debug)]
pub(crate) struct Entry {
    pub(crate) update: Update,
    pub(crate) run: usize,
    pub(crate) peak: u64,
}

/// The first place, at or behind `from`, of the run that ends before `end`, and the greatest value from there on.
fn run_before(entries: &VecDeque<Entry>, from: usize, end: usize) -> (usize, u64)
    requires indexed { IsIndexed entries.now.items }
    requires some { from < end }
    requires inside { end ≤ length entries.now.items }
    ensures from { from ≤ result.0 }
    ensures before { result.0 < end }
    ensures peak { result.1 ≡ greatest (between result.0 end (updates_in entries.now.items)) }
{
    let entry = entries[end - 1];
    if entry.run <= end - from {
        (end - entry.run, entry.peak)
    } else {
        (end - 1, entry.update.value)
    }
}

/// The run with the first update that suffices, of those between two places: its first place, and that of its last
/// update.
fn first_run(
    entries: &VecDeque<Entry>,
    from: usize,
    end: usize,
    value: u64,
) -> Option<(usize, usize)>
    requires indexed { IsIndexed entries.now.items }
    requires inside { end ≤ length entries.now.items }
    ensures none { IfNone result (first_sufficient value (between from end (updates_in entries.now.items)) ≡ None) }
    ensures some { IfSome result (λ run. StartsRun value (updates_in entries.now.items) from end run.0 run.1) }
{
    let mut found = None;
    let mut rest = end;
    while from < rest {
        let (start, peak) = run_before(entries, from, rest);
        if peak >= value {
            found = Some((start, rest - 1));
        }
        rest = start;
    }
    found
}

/// The first update, from a place on, that suffices.
pub(crate) fn first_from(entries: &VecDeque<Entry>, from: usize, value: u64) -> Option<Update>
    requires { IsIndexed entries.now.items }
    ensures { result ≡ first_sufficient value (drop from (updates_in entries.now.items)) }
{
    let mut found = None;
    let mut start = from;
    let mut end = entries.len();
    while let Some((first, last)) = first_run(entries, start, end, value) {
        found = Some(entries[last].update);
        start = first;
        end = last;
    }
    found
}

/// The entry for an update behind the others: it joins the last two runs where they are equally long.
pub(crate) fn entry_behind(entries: &VecDeque<Entry>, update: Update) -> Entry
    requires { IsIndexed entries.now.items }
    ensures update { result.update ≡ update }
    ensures peak { IsPeak (updates_in entries.now.items ++ update ∷ []) (length entries.now.items) result }
{
    let count = entries.len();
    if count > 0 {
        let last = entries[count - 1];
        if last.run < count {
            let before = entries[count - 1 - last.run];
            if before.run == last.run && before.run < count - last.run {
                return Entry {
                    update,
                    run: last.run + before.run + 1,
                    peak: update.value.max(last.peak).max(before.peak),
                };
            }
        }
    }
    Entry {
        update,
        run: 1,
        peak: update.value,
    }
}
