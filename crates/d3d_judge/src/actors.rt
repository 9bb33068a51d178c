//! Who takes the steps of a run.

ghost use Rattle.std.specs.Prelude.{◌≡◌};
ghost use Rattle.d3d_judge.specs.Actors.{actor_of as actor_in, same_actor};

use d3d_machine::Event;

/// A thread, or a queue.
#[derive(Clone, Copy, Debug, PartialEq, Eq)]
pub enum Actor {
    Thread(u32),
    Queue(u32),
}

impl Actor {
    /// Whose step an event is.
    pub(crate) fn of(event: &Event) -> Actor
        ensures { result ≡ actor_in event.now }
    {
        match event {
            Event::Call {
                thread,
                call: _call,
                reply: _reply,
            } => Actor::Thread(thread.0),
            Event::Awake(thread) => Actor::Thread(thread.0),
            Event::Queue(queue) => Actor::Queue(queue.0),
        }
    }

    /// Whether two are one.
    pub(crate) fn is(self, other: Actor) -> bool
        ensures { result ≡ same_actor self other }
    {
        match self {
            Actor::Thread(thread) => match other {
                Actor::Thread(of) => thread == of,
                Actor::Queue(_) => false,
            },
            Actor::Queue(queue) => match other {
                Actor::Thread(_) => false,
                Actor::Queue(of) => queue == of,
            },
        }
    }
}
