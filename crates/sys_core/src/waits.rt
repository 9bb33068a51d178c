//! The waits of threads: how far the search for an update that meets one has come.

ghost use Rattle.std.specs.Prelude.{◌≡◌, ◌<◌, ◌≤◌, map, length, slice_index_or};
ghost use Rattle.d3d_machine.specs.Fences.{is_met};
ghost use Rattle.d3d_machine.specs.Past.{updates_at};
ghost use Rattle.sys_core.specs.Parts.{updates_in, place_since};
ghost use Rattle.sys_core.specs.WaitSearches.{IsSearched, IsWaitSearched, AreSearched};

use crate::parts::{Armed, Seat};
use dx_base::{Room, Seq};

/// The place of the first update from that place on that is at least the value; the end where there is none.
#[tactic(auto, using(crate::proofs::WaitSearches::passed_next))]
fn first_sufficient(updates: &[u64], from: usize, value: u64) -> usize
    requires { from ≤ length updates.now }
    ensures within { result ≤ length updates.now }
    ensures tells { is_met updates.now from value ≡ is_met updates.now result value }
    ensures suffices { result < length updates.now → value ≤ slice_index_or updates.now result 0 }
{
    for place in from..updates.len() {
        if updates[place] >= value {
            return place;
        }
    }
    updates.len()
}

/// The place from which on the updates of a wait's fence are still to be looked at, when all were that came.
#[tactic(auto, using(crate::proofs::Updates::updates_of_none, crate::proofs::Updates::updates_of_some))]
fn seen_of(fences: &Seq<Room<u64>>, armed: Armed) -> usize
    requires { IsSearched (updates_at (map updates_in fences.now) armed.fence.0) armed }
    ensures within { result ≤ length (updates_at (map updates_in fences.now) armed.fence.0) }
    ensures tells { is_met (updates_at (map updates_in fences.now) armed.fence.0) armed.seen armed.value ≡ is_met (updates_at (map updates_in fences.now) armed.fence.0) result armed.value }
{
    match fences.get(armed.fence.0 as usize) {
        Some(updates) => first_sufficient(updates.as_slice(), armed.seen, armed.value),
        None => armed.seen,
    }
}

/// A thread's place, when all updates that came for its wait were looked at.
#[tactic(auto, using(crate::proofs::WaitSearches::searched_on))]
fn searched_seat(fences: &Seq<Room<u64>>, seat: Seat) -> Seat
    requires { IsWaitSearched (map updates_in fences.now) seat.waits }
    ensures searched { IsWaitSearched (map updates_in fences.now) result.waits }
    ensures same { place_since result ≡ place_since seat }
{
    match seat.waits {
        None => seat,
        Some(armed) => Seat {
            made: seat.made,
            waits: Some(Armed {
                fence: armed.fence,
                value: armed.value,
                since: armed.since,
                seen: seen_of(fences, armed),
            }),
        },
    }
}

/// Looks at the updates that came for the waits of threads.
#[tactic(auto, using(crate::proofs::WaitSearches::seat_searched))]
pub(crate) fn search_waits(seats: &mut Seq<Seat>, fences: &Seq<Room<u64>>)
    requires { AreSearched (map updates_in fences.now) seats.old }
    ensures searched { AreSearched (map updates_in fences.now) seats.new }
    ensures same { map place_since seats.new ≡ map place_since seats.old }
{
    for thread in 0..seats.len() {
        let seat = *seats.at(thread);
        *seats.at_mut(thread) = searched_seat(fences, seat);
    }
}
