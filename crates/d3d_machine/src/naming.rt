//! Whether calls name objects of their world.

ghost use Rattle.std.specs.Prelude.{◌≡◌, nat_lt, length};
ghost use Rattle.std.specs.List.{list_all};
ghost use Rattle.d3d_machine.specs.World.{is_named as call_is_named, is_named_record as record_is_named, are_named as calls_are_named};

use crate::calls::{Call, Record};
use crate::world::World;
use dx_base::{AllocatorId, FenceId, ListId, QueueId, ResourceId, Seq};

impl World {
    /// Whether the calls of all scripts name objects of the world.
    pub fn are_named(&self) -> bool
        ensures { result ≡ calls_are_named self.now }
    {
        self.scripts
            .as_slice()
            .iter()
            .all(|script| self.is_script_named(script))
    }

    /// Whether the calls of a script name objects of the world.
    fn is_script_named(&self, script: &Seq<Call>) -> bool
        ensures { result ≡ list_all (call_is_named self.now) script.now }
    {
        script.as_slice().iter().all(|call| self.is_named(call))
    }

    /// Whether what a call names are objects of the world.
    pub fn is_named(&self, call: &Call) -> bool
        ensures { result ≡ call_is_named self.now call.now }
    {
        match *call {
            Call::Recording { list, what } => self.has_list(list) && self.is_record_named(what),
            Call::Close { list } => self.has_list(list),
            Call::Reset { list, allocator } => self.has_list(list) && self.has_allocator(allocator),
            Call::Execute { queue, ref lists } => self.has_queue(queue) && self.has_lists(lists),
            Call::Signal { queue, fence, .. } => self.has_queue(queue) && self.has_fence(fence),
            Call::HostSignal { fence, .. } => self.has_fence(fence),
            Call::HostWait { fence, .. } => self.has_fence(fence),
            Call::Value { fence } => self.has_fence(fence),
            Call::Write { buffer, .. } => self.has_resource(buffer),
            Call::Read { buffer, .. } => self.has_resource(buffer),
        }
    }

    /// Whether what a recording call names are objects of the world.
    fn is_record_named(&self, what: Record) -> bool
        ensures { result ≡ record_is_named self.now what }
    {
        match what {
            Record::Copy { to, from, .. } => self.has_resource(to) && self.has_resource(from),
        }
    }

    fn has_queue(&self, queue: QueueId) -> bool
        ensures { result ≡ nat_lt queue.0 (length self.now.queues) }
    {
        (queue.0 as usize) < self.queues.len()
    }

    fn has_fence(&self, fence: FenceId) -> bool
        ensures { result ≡ nat_lt fence.0 (length self.now.fences) }
    {
        (fence.0 as usize) < self.fences.len()
    }

    fn has_resource(&self, resource: ResourceId) -> bool
        ensures { result ≡ nat_lt resource.0 (length self.now.resources) }
    {
        (resource.0 as usize) < self.resources.len()
    }

    fn has_allocator(&self, allocator: AllocatorId) -> bool
        ensures { result ≡ nat_lt allocator.0 (length self.now.allocators) }
    {
        (allocator.0 as usize) < self.allocators.len()
    }

    fn has_list(&self, list: ListId) -> bool
        ensures { result ≡ nat_lt list.0 (length self.now.lists) }
    {
        (list.0 as usize) < self.lists.len()
    }

    fn has_lists(&self, lists: &Seq<ListId>) -> bool
        ensures { result ≡ list_all (λ l. nat_lt l.0 (length self.now.lists)) lists.now }
    {
        lists.as_slice().iter().all(|list| self.has_list(*list))
    }
}
