//! The layouts of images.

ghost use Rattle.std.specs.Prelude.{◌≡◌, replicate, map, IfOk};
ghost use Rattle.dx_base.specs.Lists.{changed_at};
ghost use Rattle.barrier_lowering.specs.Layouts.{first_layout as begins_in, first_layouts, layout_at, subs_after, layouts_after_change};

use d3d_resources::{Resource, Start};
use dx_base::{Memory, Seq};
use lower_tables::layout_of;
use std::alloc::Global;
use vk_types::{Change, VkLayout};

/// The layout of each subresource of each image, after some batches.
#[derive(Debug, PartialEq, Eq, Drop)]
pub struct Layouts {
    /// A list for each image, by its number on the device.
    pub(crate) images: Seq<Seq<VkLayout>>,
}

impl Layouts {
    /// The layouts after the start-up batch: each texture is in its first one, and a legacy one in GENERAL.
    pub fn new(alloc: Global, resources: &[Option<Resource>]) -> Result<Layouts, Memory>
        ensures { IfOk result (λ layouts. layouts.images ≡ first_layouts resources.now) }
    {
        let mut images = Seq::new(alloc);
        for resource in resources {
            if let Some(
                Resource::Texture {
                    start,
                    mips,
                    layers,
                    ..
                },
            ) = resource
            {
                let subs = *mips as u64 * *layers as u64;
                images.push(subs_in(alloc, first_layout(*start), subs)?)?;
            }
        }
        Ok(Layouts { images })
    }

    /// The layout of a subresource of an image; `Undefined` where there is none.
    pub(crate) fn at(&self, image: u32, sub: u32) -> VkLayout
        ensures { result ≡ layout_at self.now.images image sub }
    {
        match self.images.get(image as usize) {
            None => VkLayout::Undefined,
            Some(subs) => match subs.get(sub as usize) {
                None => VkLayout::Undefined,
                Some(layout) => *layout,
            },
        }
    }

    /// Makes these the layouts after a change.
    #[tactic(auto, using(dx_base::proofs::Lists::write_is_changed, dx_base::proofs::Lists::changed_past))]
    pub(crate) fn change(&mut self, change: Change)
        ensures { self.new.images ≡ layouts_after_change change self.old.images }
    {
        let image = change.image as usize;
        if image < self.images.len() {
            change_subs(self.images.at_mut(image), change.sub, change.new);
        }
    }
}

/// The layout in which an image begins.
pub(crate) fn first_layout(start: Start) -> VkLayout
    ensures { result ≡ begins_in start }
{
    match start {
        Start::Legacy(_) => VkLayout::General,
        Start::Enhanced(layout) => layout_of(layout),
    }
}

/// So many subresources in one layout.
fn subs_in(alloc: Global, layout: VkLayout, subs: u64) -> Result<Seq<VkLayout>, Memory>
    ensures { IfOk result (λ layouts. layouts ≡ replicate subs layout) }
{
    let mut layouts = Seq::new(alloc);
    for sub in 0..subs {
        let _sub = sub;
        layouts.push(layout)?;
    }
    Ok(layouts)
}

/// Changes the layouts of one subresource of an image, or of all.
fn change_subs(subs: &mut Seq<VkLayout>, sub: Option<u32>, new: VkLayout)
    ensures { subs.new ≡ subs_after sub new subs.old }
{
    match sub {
        None => change_all(subs.as_mut_slice(), new),
        Some(sub) => change_one(subs, sub as usize, new),
    }
}

/// Changes the layout of one subresource of an image.
#[tactic(auto, using(dx_base::proofs::Lists::write_is_changed, dx_base::proofs::Lists::changed_past))]
fn change_one(subs: &mut Seq<VkLayout>, sub: usize, new: VkLayout)
    ensures { subs.new ≡ changed_at (λ _. new) sub subs.old }
{
    if sub < subs.len() {
        *subs.at_mut(sub) = new;
    }
}

/// Changes the layouts of all subresources of an image.
fn change_all(subs: &mut [VkLayout], new: VkLayout)
    ensures { subs.new ≡ map (λ _. new) subs.old }
{
    for layout in subs.iter_mut() {
        *layout = new;
    }
}
