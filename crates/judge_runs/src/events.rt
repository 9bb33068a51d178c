//! From the events of a world's history to what happens at them.

use crate::happenings::{Deed, Happening, Piece, What, Work};
use crate::words::{Stretch, Sub};
use d3d_machine::{Call, Event, Record, Reply, Resource, World};
use dx_base::{ListId, Memory};
use dx_flags::{Kind, Layout, Part};
use std::alloc::Global;

/// A command that a list holds.
#[derive(Clone, Copy)]
struct Recorded {
    list: u32,
    what: Record,
}

/// What the lists of a world hold, while the events of a history go by.
#[derive(Drop)]
pub struct Events {
    alloc: Global,
    recorded: Vec<Recorded>,
}

/// So many words of a buffer from an offset in bytes on.
fn words_of(buffer: u32, offset: u64, words: u64) -> Stretch {
    Stretch {
        resource: buffer,
        sub: 0,
        first: offset / 4,
        words,
    }
}

/// The words of a buffer from an offset on, both in bytes.
fn bytes_of(buffer: u32, offset: u64, bytes: u64) -> Stretch {
    words_of(buffer, offset, bytes / 4)
}

/// The subresources of a world.
pub fn subs_of(alloc: Global, world: &World) -> Result<Vec<Sub>, Memory> {
    let mut subs = Vec::new(alloc);
    match push_subs(&mut subs, world) {
        Ok(()) => Ok(subs),
        Err(memory) => {
            drop(subs);
            Err(memory)
        }
    }
}

fn push_subs(subs: &mut Vec<Sub>, world: &World) -> Result<(), Memory> {
    let mut id = 0u32;
    for resource in world.resources.as_slice() {
        if let Some(Resource::Buffer { home, words }) = resource {
            subs.push(Sub {
                resource: id,
                sub: 0,
                words: u64::from(*words),
                home: *home,
                texture: false,
                shared: false,
                layout: Layout::Common,
            })?;
        }
        id = id.saturating_add(1);
    }
    Ok(())
}

/// The parts of a copy at a place of its execute.
fn push_record(pieces: &mut Vec<Piece>, place: u32, what: Record) -> Result<(), Memory> {
    match what {
        Record::Copy {
            to,
            to_offset,
            from,
            from_offset,
            bytes,
        } => {
            let from = bytes_of(from.0, from_offset, bytes);
            let to = bytes_of(to.0, to_offset, bytes);
            let reads = What::Reads(Part::Copy, Kind::CopySource, from);
            let writes = What::Writes(Part::Copy, Kind::CopyDest, to);
            pieces.push(Piece { place, what: reads })?;
            pieces.push(Piece {
                place,
                what: writes,
            })?;
        }
    }
    Ok(())
}

impl Events {
    /// Before any event all lists are empty.
    pub fn new(alloc: Global) -> Events {
        Events {
            alloc,
            recorded: Vec::new(alloc),
        }
    }

    /// What happens at an event.
    pub fn happening(&mut self, event: &Event) -> Result<Happening, Memory> {
        match event {
            Event::Call {
                thread,
                call,
                reply,
            } => {
                let deed = match reply {
                    Reply::Error(_) => Deed::Nothing,
                    _ => self.deed(call)?,
                };
                Ok(Happening::Calls(thread.0, deed))
            }
            Event::Awake(thread) => Ok(Happening::Wakes(thread.0)),
            Event::Queue(queue) => Ok(Happening::Completes(queue.0)),
        }
    }

    /// What a call does that is not refused.
    fn deed(&mut self, call: &Call) -> Result<Deed, Memory> {
        Ok(match call {
            Call::Recording { list, what } => {
                let list = list.0;
                self.recorded.push(Recorded { list, what: *what })?;
                Deed::Nothing
            }
            Call::Close { .. } => Deed::Nothing,
            Call::Reset { list, .. } => {
                let list = list.0;
                self.recorded.retain(|one| one.list != list);
                Deed::Nothing
            }
            Call::Execute { queue, lists } => {
                let pieces = self.gathered(lists.as_slice())?;
                Deed::Gives(queue.0, Work::Executes(pieces))
            }
            Call::Signal {
                queue,
                fence,
                value,
            } => Deed::Gives(queue.0, Work::Signals(fence.0, *value)),
            Call::HostSignal { fence, value } => Deed::Sets(fence.0, *value),
            Call::HostWait { fence, value } => Deed::WaitsFor(fence.0, *value),
            Call::Value { fence } => Deed::Asks(fence.0),
            Call::Write {
                buffer,
                offset,
                words,
            } => Deed::Stores(words_of(buffer.0, *offset, words.len() as u64)),
            Call::Read {
                buffer,
                offset,
                bytes,
            } => Deed::Loads(bytes_of(buffer.0, *offset, *bytes)),
        })
    }

    /// The parts of the commands of lists, in order.
    fn gathered(&self, lists: &[ListId]) -> Result<Vec<Piece>, Memory> {
        let mut pieces = Vec::new(self.alloc);
        match self.push_lists(&mut pieces, lists) {
            Ok(()) => Ok(pieces),
            Err(memory) => {
                drop(pieces);
                Err(memory)
            }
        }
    }

    fn push_lists(&self, pieces: &mut Vec<Piece>, lists: &[ListId]) -> Result<(), Memory> {
        let mut place = 0u32;
        for list in lists {
            for one in &self.recorded {
                if one.list == list.0 {
                    push_record(pieces, place, one.what)?;
                    place = place.saturating_add(1);
                }
            }
        }
        Ok(())
    }
}
