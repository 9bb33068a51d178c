//! The start-up batch: what brings each image from UNDEFINED into its first layout.

ghost use Rattle.std.specs.Prelude.{◌≡◌, ◌≤◌, ◌++◌, [], ◌∷◌, length, true, IfOk, OnOk};
ghost use Rattle.barrier_lowering.specs.Startup.{startup_barrier as barrier_at_start, startup_of_image, startup_from, startup_commands as commands_at_start, images_of, is_valid, are_valid};

use crate::layouts::first_layout;
use d3d_resources::Resource;
use dx_base::{Memory, Seq};
use std::alloc::Global;
use vk_types::{Accesses, Change, Stages, VkCommand, VkLayout};

/// The commands of the start-up batch: a barrier for each subresource of each live texture, in order of ids
/// and of subresources, from UNDEFINED to its first layout (Vulkan 1.3, 7.7.1). A dead resource is None. The
/// only error is want of memory.
pub fn startup_commands(
    alloc: Global,
    resources: &[Option<Resource>],
) -> Result<Seq<VkCommand>, Memory>
    requires few { length resources.now ≤ 4096 }
    requires valid { are_valid resources.now ≡ true }
    ensures { IfOk result (λ commands. commands ≡ commands_at_start resources.now) }
{
    let mut commands = Seq::new(alloc);
    let mut image = 0;
    for resource in resources {
        add_barriers(&mut commands, image, resource)?;
        image += images_in(resource);
    }
    Ok(commands)
}

/// How many images a resource is: a live texture is one.
fn images_in(resource: &Option<Resource>) -> u32
    ensures count { result ≡ images_of resource.now }
    ensures one { result ≤ 1 }
{
    match resource {
        Some(Resource::Texture { .. }) => 1,
        Some(Resource::Buffer { .. }) | None => 0,
    }
}

/// Adds the barriers of a resource; its image, where it is one, has that number.
fn add_barriers(
    commands: &mut Seq<VkCommand>,
    image: u32,
    resource: &Option<Resource>,
) -> Result<(), Memory>
    requires { is_valid resource.now ≡ true }
    ensures { OnOk result (commands.new ≡ commands.old ++ startup_from image (resource.now ∷ [])) }
{
    match resource {
        Some(texture @ Resource::Texture { start, .. }) => {
            add_barriers_of_image(commands, image, first_layout(*start), texture.subs())
        }
        Some(Resource::Buffer { .. }) | None => Ok(()),
    }
}

/// Adds the barriers of an image with so many subresources.
fn add_barriers_of_image(
    commands: &mut Seq<VkCommand>,
    image: u32,
    layout: VkLayout,
    subs: u32,
) -> Result<(), Memory>
    ensures { OnOk result (commands.new ≡ commands.old ++ startup_of_image image layout 0 subs) }
{
    for sub in 0..subs {
        commands.push(startup_barrier(image, sub, layout))?;
    }
    Ok(())
}

/// The barrier of one subresource: no access comes before it, and any may come behind it.
fn startup_barrier(image: u32, sub: u32, layout: VkLayout) -> VkCommand
    ensures { result ≡ barrier_at_start image sub layout }
{
    VkCommand::Barrier {
        from: Stages::ALL_COMMANDS,
        made: Accesses(0),
        to: Stages::ALL_COMMANDS,
        seen: Accesses(Accesses::MEMORY_READ.0 | Accesses::MEMORY_WRITE.0),
        change: Some(Change {
            image,
            sub: Some(sub),
            old: VkLayout::Undefined,
            new: layout,
        }),
    }
}
