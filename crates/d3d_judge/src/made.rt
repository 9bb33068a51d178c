//! What is made for events before they are fed.

ghost use Rattle.std.specs.Prelude.{◌≡◌, ◌<◌, length, slice_get, Some, None, true, false, IfSome};
ghost use Rattle.std.specs.List.{list_any};
ghost use Rattle.d3d_judge.specs.declared.made.Made.TheVariants.{Copy as copy_made, Counts as counts_made};
ghost use Rattle.d3d_judge.specs.Prepared.{IsCopy, IsCounts, IsPlaceOf, HasMade, is_for};

use crate::actors::Actor;
use clocks::Clock;
use d3d_machine::Call;

/// What was made for an event: tables alone, a copy of a call, or a copy of the counts before it.
#[derive(Drop)]
pub(crate) enum Made {
    Tables,
    Copy(Call),
    Counts(Clock),
}

/// What was made for the next event of an actor.
#[derive(Drop)]
pub(crate) struct Prepared {
    pub actor: Actor,
    pub made: Made,
}

/// The copy of a call.
pub(crate) fn copy_in(made: Made) -> Call
    requires { IsCopy made }
    ensures { made ≡ copy_made result }
{
    match made {
        Made::Copy(call) => call,
        Made::Tables => unreachable!(),
        Made::Counts(_) => unreachable!(),
    }
}

/// The copy of counts.
pub(crate) fn counts_in(made: Made) -> Clock
    requires { IsCounts made }
    ensures { made ≡ counts_made result }
{
    match made {
        Made::Counts(counts) => counts,
        Made::Tables => unreachable!(),
        Made::Copy(_) => unreachable!(),
    }
}

/// The place of what was made for an actor.
#[tactic(auto, using(crate::proofs::Prepared::any_later, crate::proofs::Prepared::any_here))]
fn place_of(prepared: &[Prepared], actor: Actor) -> Option<usize>
    ensures place { IfSome result (λ at. IsPlaceOf prepared.now actor at) }
    ensures none { result ≡ None → list_any (is_for actor) prepared.now ≡ false }
{
    for at in 0..prepared.len() {
        if prepared[at].actor.is(actor) {
            return Some(at);
        }
    }
    None
}

/// Whether something was made for an actor.
pub(crate) fn is_prepared(prepared: &[Prepared], actor: Actor) -> bool
    ensures { result ≡ list_any (is_for actor) prepared.now }
{
    prepared.iter().any(|one| one.actor.is(actor))
}

/// Takes out what was made for an actor, where something was.
pub(crate) fn take_made(prepared: &mut Vec<Prepared>, actor: Actor) -> Option<Made>
    ensures made { IfSome result (λ made. HasMade prepared.old.items actor made) }
    ensures same { result ≡ None → prepared.new ≡ prepared.old }
    ensures none { result ≡ None → list_any (is_for actor) prepared.old.items ≡ false }
{
    match place_of(prepared.as_slice(), actor) {
        None => None,
        Some(at) => Some(prepared.swap_remove(at).made),
    }
}
