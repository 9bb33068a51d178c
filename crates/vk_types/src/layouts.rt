//! The layouts of images.

ghost use Rattle.std.specs.Prelude.{◌≡◌};
ghost use Rattle.vk_types.specs.Whole.{image_allows};

use crate::accesses::Access;

/// A layout of the words of an image (VkImageLayout).
#[derive(Clone, Copy, Debug, PartialEq, Eq)]
pub enum VkLayout {
    Undefined,
    General,
    ShaderReadOnlyOptimal,
    TransferSrcOptimal,
    TransferDstOptimal,
}

impl VkLayout {
    /// Whether the layout allows an access (Vulkan 1.3, 12.4): GENERAL each, SHADER_READ_ONLY_OPTIMAL the reads
    /// of shaders, and the two layouts of transfers theirs.
    pub fn allows(self, access: Access) -> bool
        ensures { result ≡ image_allows self access }
    {
        match self {
            VkLayout::Undefined => false,
            VkLayout::General => true,
            VkLayout::ShaderReadOnlyOptimal => access == Access::ShaderRead,
            VkLayout::TransferSrcOptimal => access == Access::TransferRead,
            VkLayout::TransferDstOptimal => access == Access::TransferWrite,
        }
    }
}

/// A change of the layout of an image's subresources (VkImageMemoryBarrier2).
#[derive(Clone, Copy, Debug, PartialEq, Eq)]
pub struct Change {
    /// The image's place in the plan.
    pub image: u32,
    /// The subresource, which is mip plus layer times the number of mips; None is all of them.
    pub sub: Option<u32>,
    pub old: VkLayout,
    pub new: VkLayout,
}
