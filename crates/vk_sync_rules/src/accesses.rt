//! The memory accesses that were made.

ghost use Rattle.std.specs.Prelude.{◌≡◌, ◌==◌, ◌&&◌, nat_le};
ghost use Rattle.vk_sync_rules.specs.DoneAccesses.{gives_order, ordered, sees, is_host, is_direct, in_scope, is_made_available, is_ended, is_covered, covers};
ghost use Rattle.vk_sync_rules.specs.Rules.{is_host_ordered};
ghost use Rattle.std.specs.List.{list_any};
ghost use Rattle.vk_sync_rules.specs.declared.accesses.Gain.{Gain};

use crate::access_sets::do_share;
use crate::places::Place;
use crate::ranges::WordRange;
use dx_base::Seq;
use vk_types::{Accesses, Stages};

/// From the place of the queue on, commands of the stages are ordered after an access (Vulkan 1.3, 7.1: execution
/// dependencies). Where the access is a write that was available by then, it is visible there to the accesses
/// (memory dependencies).
#[derive(Clone, Copy, Debug, PartialEq, Eq)]
pub struct Gain {
    pub queue: u32,
    pub place: Place,
    pub stages: Stages,
    pub accesses: Accesses,
    pub available: bool,
}

/// The command that made an access. A layout change is made in no stage: `stage` is then the empty set.
#[derive(Clone, Copy, Debug, PartialEq, Eq)]
pub struct Maker {
    pub queue: u32,
    pub place: Place,
    pub stage: Stages,
}

/// An access that a done command or the host made.
#[derive(Debug, PartialEq, Eq, Drop)]
pub struct DoneAccess {
    pub range: WordRange,
    /// Whether it writes the words; else it reads them.
    pub writes: bool,
    /// The kinds of access; none of the host and of a layout change.
    pub access: Accesses,
    /// The command that made it; None is the host.
    pub by: Option<Maker>,
    /// What is ordered after it.
    pub gains: Seq<Gain>,
    /// The timelines and values that tell that it is done.
    pub signals: Seq<(u32, u64)>,
    /// A write is available (Vulkan 1.3, 7.1: availability operations).
    pub available: bool,
}

/// Stages and accesses: a side of a barrier.
#[derive(Clone, Copy, Debug, PartialEq, Eq)]
pub(crate) struct Side {
    pub stages: Stages,
    pub accesses: Accesses,
}

impl Gain {
    /// Whether it orders commands of some of these stages at a place of a queue.
    fn orders(&self, queue: u64, stages: Stages, place: Place) -> bool
        ensures { result ≡ gives_order queue stages place self.now }
    {
        self.queue as u64 == queue && (self.stages.meets(stages) && self.place.is_by(place))
    }
}

impl DoneAccess {
    /// Whether the host made it.
    pub(crate) fn is_host(&self) -> bool
        ensures { result ≡ is_host self.now }
    {
        match &self.by {
            None => true,
            Some(_) => false,
        }
    }

    /// Whether a host access is ordered after it: the host made it, or some timeline tells that it is done.
    #[tactic(auto, using(crate::proofs::HostSteps::some_signal))]
    pub(crate) fn is_ordered_for_host(&self) -> bool
        ensures { result ≡ is_host_ordered self.now }
    {
        self.is_host() || !self.signals.is_empty()
    }

    /// Whether commands of some of these stages at a place of a queue are ordered after it.
    pub(crate) fn is_ordered(&self, queue: u32, stages: Stages, place: Place) -> bool
        ensures { result ≡ ordered queue stages place self.now }
    {
        self.gains
            .as_slice()
            .iter()
            .any(|gain| gain.orders(queue as u64, stages, place))
    }

    /// Whether an access of a command of some stages at a place of a queue sees it.
    pub(crate) fn is_seen(&self, queue: u64, side: Side, place: Place) -> bool
        ensures { result ≡ sees queue side.stages side.accesses place self.now }
    {
        self.gains.as_slice().iter().any(|gain| {
            gain.orders(queue, side.stages, place)
                && (gain.available && do_share(gain.accesses, side.accesses))
        })
    }

    /// Whether it was made on a queue before a place, in one of these stages.
    fn is_direct(&self, queue: u32, from: Stages, place: Place) -> bool
        ensures { result ≡ is_direct queue from place self.now }
    {
        match &self.by {
            None => false,
            Some(maker) => {
                maker.queue == queue && (maker.stage.meets(from) && maker.place.is_before(place))
            }
        }
    }

    /// Whether it is in the first scope of a barrier at a place of a queue.
    pub(crate) fn is_in_scope(&self, queue: u32, from: Stages, place: Place) -> bool
        ensures { result ≡ in_scope queue from place self.now }
    {
        self.is_direct(queue, from, place) || self.is_ordered(queue, from, place)
    }

    /// Whether a barrier at a place of a queue makes it available.
    pub(crate) fn is_made_available(&self, queue: u32, from: Side, place: Place) -> bool
        ensures { result ≡ is_made_available queue place from.stages from.accesses self.now }
    {
        self.is_direct(queue, from.stages, place) && do_share(from.accesses, self.access)
    }

    /// Whether some wait covers some pair that it was signalled by.
    pub(crate) fn is_covered(&self, waits: &[(u32, u64)]) -> bool
        ensures { result ≡ is_covered waits.now self.now.signals }
    {
        self.signals
            .as_slice()
            .iter()
            .any(|signal| is_awaited(waits, *signal))
    }

    /// Whether the end of a batch of a queue covers it.
    pub(crate) fn is_ended(&self, queue: u32, number: u64) -> bool
        ensures { result ≡ is_ended queue number self.now }
    {
        let made = match &self.by {
            None => false,
            Some(maker) => maker.queue == queue && maker.place.number <= number,
        };
        made || reach_by(self.gains.as_slice(), queue, number)
    }

    /// The same, but for what is ordered after it, whether it is available, and what signals it.
    pub(crate) fn with(
        &self,
        gains: Seq<Gain>,
        signals: Seq<(u32, u64)>,
        available: bool,
    ) -> DoneAccess
        ensures { result ≡ record self.now { gains = gains; signals = signals; available = available } }
    {
        DoneAccess {
            range: self.range,
            writes: self.writes,
            access: self.access,
            by: self.by,
            gains,
            signals,
            available,
        }
    }
}

/// Whether some wait covers a pair of a timeline and a value.
fn is_awaited(waits: &[(u32, u64)], signal: (u32, u64)) -> bool
    ensures { result ≡ covers waits.now signal }
{
    waits
        .iter()
        .any(|wait| signal.0 == wait.0 && signal.1 <= wait.1)
}

/// Whether some gain is of a place of a queue up to a batch.
fn reach_by(gains: &[Gain], queue: u32, number: u64) -> bool
    ensures { result ≡ list_any (λ (g : Gain). (g.queue == queue) && nat_le g.place.number number) gains.now }
{
    gains
        .iter()
        .any(|gain| gain.queue == queue && gain.place.number <= number)
}
