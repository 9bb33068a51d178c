//! The numbers that resources have on the device.

ghost use Rattle.std.specs.Prelude.{◌≡◌, ◌≤◌, ◌<◌, length, IfOk};
ghost use Rattle.barrier_lowering.specs.Numbers.{is_of as has_sort, AreNumbers, AreNumbersOf, buffer_number, image_number};

use d3d_resources::Resource;
use dx_base::{Memory, ResourceId, Seq};
use std::alloc::Global;

/// The two sorts of resources that the device numbers each for itself.
#[derive(Clone, Copy, Debug, PartialEq, Eq)]
pub(crate) enum Sort {
    Buffers,
    Images,
}

/// Tables of the numbers of resources, by their ids: how many live buffers come before each, and how many
/// live textures.
#[derive(Debug, Drop)]
pub struct Numbers {
    pub(crate) buffers: Seq<u32>,
    pub(crate) images: Seq<u32>,
}

impl Numbers {
    /// The tables of resources, of which a dead one is None.
    pub fn new(alloc: Global, resources: &[Option<Resource>]) -> Result<Numbers, Memory>
        requires { length resources.now ≤ 4096 }
        ensures { IfOk result (λ numbers. AreNumbersOf resources.now numbers) }
    {
        Ok(Numbers {
            buffers: numbers_of(alloc, resources, Sort::Buffers)?,
            images: numbers_of(alloc, resources, Sort::Images)?,
        })
    }

    /// The number of a buffer.
    #[tactic(auto, using(crate::proofs::NumberTables::number_there, crate::proofs::NumberTables::number_is))]
    pub(crate) fn buffer(&self, resources: &[Option<Resource>], id: ResourceId) -> u32
        requires numbers { AreNumbersOf resources.now self.now }
        requires named { id.0 < length resources.now }
        ensures { result ≡ buffer_number resources.now id.0 }
    {
        let _resources = resources;
        *self.buffers.at(id.0 as usize)
    }

    /// The number of a texture's image.
    #[tactic(auto, using(crate::proofs::NumberTables::number_there, crate::proofs::NumberTables::number_is))]
    pub(crate) fn image(&self, resources: &[Option<Resource>], id: ResourceId) -> u32
        requires numbers { AreNumbersOf resources.now self.now }
        requires named { id.0 < length resources.now }
        ensures { result ≡ image_number resources.now id.0 }
    {
        let _resources = resources;
        *self.images.at(id.0 as usize)
    }
}

/// Whether a resource is live and of a sort.
fn is_of(resource: Option<Resource>, sort: Sort) -> bool
    ensures { result ≡ has_sort sort resource }
{
    match resource {
        None => false,
        Some(Resource::Buffer { .. }) => sort == Sort::Buffers,
        Some(Resource::Texture { .. }) => sort == Sort::Images,
    }
}

/// How many live resources of a sort come before each.
fn numbers_of(alloc: Global, resources: &[Option<Resource>], sort: Sort) -> Result<Seq<u32>, Memory>
    requires { length resources.now ≤ 4096 }
    ensures { IfOk result (λ numbers. AreNumbers sort resources.now numbers) }
{
    let mut numbers = Seq::new(alloc);
    let mut number = 0;
    for resource in resources {
        numbers.push(number)?;
        if is_of(*resource, sort) {
            number += 1;
        }
    }
    Ok(numbers)
}
