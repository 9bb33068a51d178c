//! Whether commands are as they can have been recorded.

ghost use Rattle.std.specs.Prelude.{◌≡◌, ◌&&◌};
ghost use Rattle.barrier_lowering.specs.Lowering.{is_there as names_resource, has_sub as names_sub, sub_count as count_subs, is_small as has_small_words, is_scope_there as scope_names, is_recorded as can_be_recorded, are_recorded as can_all_be_recorded};

use crate::records::Record;
use d3d_resources::Resource;
use dx_base::ResourceId;
use enhanced_barriers::Scope;

/// Whether each command of a list is as `lower` asks: it names resources and subresources that there are,
/// and the words at which and of which it copies are numbered by 32 bits. A dead resource is None.
pub fn are_recorded(resources: &[Option<Resource>], commands: &[Record]) -> bool
    ensures { result ≡ can_all_be_recorded resources.now commands.now }
{
    commands
        .iter()
        .all(|command| is_recorded(resources, command))
}

/// Whether a command is.
fn is_recorded(resources: &[Option<Resource>], command: &Record) -> bool
    ensures { result ≡ can_be_recorded resources.now command.now }
{
    match *command {
        Record::Copy {
            to,
            to_offset,
            from,
            from_offset,
            bytes,
        } => {
            (is_there(resources, to) && is_there(resources, from))
                && (is_small(to_offset) && (is_small(from_offset) && is_small(bytes)))
        }
        Record::CopyTexture {
            to,
            to_sub,
            from,
            from_sub,
        } => has_sub(resources, to, to_sub) && has_sub(resources, from, from_sub),
        Record::CopyIn {
            to,
            sub,
            from,
            offset,
            pitch,
        } => has_sub(resources, to, sub) && is_there(resources, from) && are_small(offset, pitch),
        Record::CopyOut {
            to,
            offset,
            pitch,
            from,
            sub,
        } => is_there(resources, to) && has_sub(resources, from, sub) && are_small(offset, pitch),
        Record::Barrier(barrier) => is_scope_there(resources, barrier.scope),
    }
}

/// Whether an id names a resource.
fn is_there(resources: &[Option<Resource>], id: ResourceId) -> bool
    ensures { result ≡ names_resource resources.now id.0 }
{
    (id.0 as usize) < resources.len()
}

/// How many subresources a live texture has; nothing else has one that is copied.
fn sub_count(resource: &Option<Resource>) -> u64
    ensures { result ≡ count_subs resource.now }
{
    match *resource {
        Some(Resource::Texture { mips, layers, .. }) => mips as u64 * layers as u64,
        Some(Resource::Buffer { .. }) | None => 0,
    }
}

/// Whether an id names a live texture that has a subresource.
fn has_sub(resources: &[Option<Resource>], id: ResourceId, sub: u64) -> bool
    ensures { result ≡ names_sub resources.now id.0 sub }
{
    is_there(resources, id)
        && (sub <= u32::MAX as u64 && sub < sub_count(&resources[id.0 as usize]))
}

/// Whether the words of an offset, a pitch or a size are numbered by 32 bits.
fn is_small(bytes: u64) -> bool
    ensures { result ≡ has_small_words bytes }
{
    bytes / 4 <= u32::MAX as u64
}

/// The same of rows in a buffer: of their first byte, and of what lies from one to the next.
fn are_small(offset: u64, pitch: u64) -> bool
    ensures { result ≡ has_small_words offset && has_small_words pitch }
{
    is_small(offset) && is_small(pitch)
}

/// Whether the scope of a barrier names what there is.
fn is_scope_there(resources: &[Option<Resource>], scope: Scope) -> bool
    ensures { result ≡ scope_names resources.now scope }
{
    match scope {
        Scope::Global | Scope::Buffer(_) => true,
        Scope::Texture(id, _) => is_there(resources, id),
    }
}
