//! Tests of the arguments of calls.

ghost use Rattle.std.specs.Prelude.{◌≡◌, ◌+◌, ◌*◌, ◌==◌, ◌&&◌, ◌<◌, ◌^◌, not, nat_lt, nat_le, is_some, None, Some};
ghost use Rattle.std.specs.Option.{option_copied};
ghost use Rattle.dx_base.specs.declared.hresult.Hresult.TheVariants.{InvalidArg};
ghost use Rattle.d3d_machine.specs.World.{resource_of, words_in as size_of, is_upload as host_writes, is_readback as host_reads, is_inside as inside, is_whole, overlaps as overlap};
ghost use Rattle.d3d_machine.specs.Replies.{refuse_if, same_type, same_types, is_copy as copy_is_good, argument_error as error_of_argument};
ghost use Rattle.d3d_machine.specs.Checks.{write_refusal as refusal_of_write, read_refusal as refusal_of_read};

use crate::calls::Record;
use crate::world::{Resource, World};
use dx_base::{Home, Hresult, ListType, ResourceId};

impl World {
    /// The resource of that id, where it lives.
    pub fn resource(&self, of: ResourceId) -> Option<Resource>
        ensures { result ≡ resource_of self.now of.0 }
    {
        match self.resources.get(of.0 as usize) {
            Some(resource) => *resource,
            None => None,
        }
    }
}

/// Whether two types are one.
fn is_same_type(a: ListType, b: ListType) -> bool
    ensures { result ≡ same_type a b }
{
    a == b
}

/// Whether both types are there, and are one.
pub(crate) fn are_same_types(a: Option<&ListType>, b: Option<&ListType>) -> bool
    ensures { result ≡ same_types (option_copied a.entry) (option_copied b.entry) }
{
    match (a, b) {
        (Some(a), Some(b)) => is_same_type(*a, *b),
        (Some(_), None) => false,
        (None, Some(_)) => false,
        (None, None) => false,
    }
}

/// The size of a buffer in words; 0 where it is dead.
fn words_in(world: &World, buffer: ResourceId) -> u32
    ensures { result ≡ size_of world.now buffer.0 }
{
    match world.resource(buffer) {
        Some(Resource::Buffer { home: _, words }) => words,
        None => 0,
    }
}

/// Whether a range of bytes is one of whole words, and lies inside a buffer of that many words.
fn is_inside(words: u32, offset: u64, bytes: u64) -> bool
    ensures { result ≡ inside words offset bytes }
{
    match offset.checked_add(bytes) {
        Some(end) => offset % 4 == 0 && bytes % 4 == 0 && end <= 4 * (words as u64),
        None => false,
    }
}

/// Whether a place lies before the end of a range of bytes.
fn is_before_end(place: u64, start: u64, bytes: u64) -> bool
    ensures { result ≡ nat_lt place (start + bytes) }
{
    place < start || place - start < bytes
}

/// Whether two ranges of one size share a byte.
fn overlaps(a: u64, b: u64, bytes: u64) -> bool
    ensures { result ≡ overlap a b bytes }
{
    is_before_end(a, b, bytes) && is_before_end(b, a, bytes)
}

/// Whether a copy names live buffers, whole words and ranges inside them that do not overlap.
fn is_copy(
    world: &World,
    to: ResourceId,
    to_offset: u64,
    from: ResourceId,
    from_offset: u64,
    bytes: u64,
) -> bool
    ensures { result ≡ copy_is_good world.now to.0 to_offset from.0 from_offset bytes }
{
    let inside = is_inside(words_in(world, to), to_offset, bytes)
        && is_inside(words_in(world, from), from_offset, bytes);
    let apart = to != from || !overlaps(to_offset, from_offset, bytes);
    world.resource(to).is_some() && world.resource(from).is_some() && bytes != 0 && inside && apart
}

/// The error of a recording call's arguments, where they have one.
pub fn argument_error(world: &World, what: Record) -> Option<Hresult>
    ensures { result ≡ error_of_argument world.now what }
{
    match what {
        Record::Copy {
            to,
            to_offset,
            from,
            from_offset,
            bytes,
        } => {
            if is_copy(world, to, to_offset, from, from_offset, bytes) {
                None
            } else {
                Some(Hresult::InvalidArg)
            }
        }
    }
}

/// Whether the buffer lives, and the host writes it.
fn is_upload(world: &World, buffer: ResourceId) -> bool
    ensures { result ≡ host_writes world.now buffer.0 }
{
    match world.resource(buffer) {
        Some(Resource::Buffer { home, words: _ }) => home == Home::Upload,
        None => false,
    }
}

/// Whether the buffer lives, and the host reads it.
fn is_readback(world: &World, buffer: ResourceId) -> bool
    ensures { result ≡ host_reads world.now buffer.0 }
{
    match world.resource(buffer) {
        Some(Resource::Buffer { home, words: _ }) => home == Home::Readback,
        None => false,
    }
}

/// Whether so many words from that byte on are whole words inside a buffer of that many words.
fn are_inside(size: u32, offset: u64, words: usize) -> bool
    ensures { result ≡ inside size offset (4 * words) }
{
    match (words as u64).checked_mul(4) {
        Some(bytes) => is_inside(size, offset, bytes),
        None => false,
    }
}

/// Why a host write of so many words is refused, where it is: the buffer is no upload buffer, or the
/// words are not whole words inside it. The offset is in bytes.
pub fn write_refusal(
    world: &World,
    buffer: ResourceId,
    offset: u64,
    words: usize,
) -> Option<Hresult>
    ensures { result ≡ refusal_of_write world.now buffer.0 offset words }
{
    if is_upload(world, buffer) && are_inside(words_in(world, buffer), offset, words) {
        None
    } else {
        Some(Hresult::InvalidArg)
    }
}

/// Why a host read is refused, where it is: the buffer is no readback buffer, or the range is empty, or
/// not one of whole words inside it. The offset and the size are in bytes.
pub fn read_refusal(world: &World, buffer: ResourceId, offset: u64, bytes: u64) -> Option<Hresult>
    ensures { result ≡ refusal_of_read world.now buffer.0 offset bytes }
{
    if is_readback(world, buffer)
        && bytes != 0
        && is_inside(words_in(world, buffer), offset, bytes)
    {
        None
    } else {
        Some(Hresult::InvalidArg)
    }
}
