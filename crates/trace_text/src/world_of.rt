//! The world of a trace.

ghost use Rattle.std.specs.Prelude.{◌≡◌, [], ◌∷◌, IfOk, OnOk};
ghost use Rattle.d3d_machine.specs.World.{IsWorld, HasOneQueueAtMost};
ghost use Rattle.trace_lines.specs.declared.object.Declared.TheVariants as declared_object;
ghost use Rattle.trace_text.specs.Seen.{seen};
ghost use Rattle.trace_text.specs.WorldOf.{resource_in, with_object, objects_of, world_of_value};

use crate::trace::Trace;
use d3d_machine::{Call, Resource, World};
use dx_base::{Home, Memory, Seq};
use std::alloc::Global;
use trace_lines::{Declared, is_refused_size};

/// The buffer of that size in bytes, where its creation is not refused.
fn buffer(home: Home, bytes: u64) -> Option<Resource>
    ensures { resource_in (declared_object.Buffer home bytes) ≡ result ∷ [] }
{
    if is_refused_size(bytes) {
        return None;
    }
    Some(Resource::Buffer {
        home,
        words: (bytes / 4) as u32,
    })
}

/// Adds an object behind those of its kind.
fn add(world: &mut World, object: &Declared) -> Result<(), Memory>
    ensures { OnOk result (world.new ≡ with_object world.old object.now) }
{
    match object {
        Declared::Queue { kind } => world.queues.push(*kind),
        Declared::Fence { value } => world.fences.push(*value),
        Declared::Buffer { home, bytes } => world.resources.push(buffer(*home, *bytes)),
        Declared::Allocator { kind } => world.allocators.push(*kind),
        Declared::List { kind } => world.lists.push(*kind),
    }
}

/// The declared objects by kind, and no scripts: each is added to the world of those before it.
#[tactic(auto, unfolding(crate::specs::WorldOf::objects_from))]
fn objects(alloc: Global, declared: &[Declared]) -> Result<World, Memory>
    ensures { IfOk result (λ w. w ≡ objects_of declared.now) }
{
    let mut world = World {
        queues: Seq::new(alloc),
        fences: Seq::new(alloc),
        resources: Seq::new(alloc),
        allocators: Seq::new(alloc),
        lists: Seq::new(alloc),
        scripts: Seq::new(alloc),
    };
    for object in declared {
        add(&mut world, object)?;
    }
    Ok(world)
}

/// A copy of a script.
fn copied_script(alloc: Global, script: &[Call]) -> Result<Seq<Call>, Memory>
    ensures { IfOk result (λ copy. copy ≡ script.now) }
{
    let mut copy = Seq::new(alloc);
    for call in script {
        copy.push(call.copied(alloc)?)?;
    }
    Ok(copy)
}

/// A copy of scripts.
fn copied_scripts(alloc: Global, scripts: &[Seq<Call>]) -> Result<Seq<Seq<Call>>, Memory>
    ensures { IfOk result (λ copy. copy ≡ scripts.now) }
{
    let mut copy = Seq::new(alloc);
    for script in scripts {
        copy.push(copied_script(alloc, script.as_slice())?)?;
    }
    Ok(copy)
}

/// The world of a trace: its objects by kind in order of declaration, where a buffer whose creation is refused is
/// dead, and the script of each thread. It is a valid world, and has one queue at most.
pub fn world(alloc: Global, trace: &Trace) -> Result<World, Memory>
    ensures value { IfOk result (λ w. w ≡ world_of_value (seen trace.now)) }
    ensures valid { IfOk result (λ w. IsWorld w) }
    ensures queues { IfOk result (λ w. HasOneQueueAtMost w) }
{
    let mut world = objects(alloc, trace.declared.as_slice())?;
    world.scripts = copied_scripts(alloc, trace.scripts.as_slice())?;
    Ok(world)
}
