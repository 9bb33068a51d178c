//! The mips of a texture.

ghost use Rattle.std.specs.Prelude.{◌≡◌, ◌*◌, ◌≤◌, ◌<◌, max};
ghost use Rattle.d3d_resources.specs.Mips.{extent_of_mip, extents_of_mip, words_of_mip, words_of_mips, AreExtents};

/// The extents of a subresource of a texture, in texels.
#[derive(Clone, Copy, Debug, PartialEq, Eq)]
pub struct Extents {
    pub width: u32,
    pub height: u32,
}

/// An extent of a mip, counted from 0, where that of the texture along the same axis is given.
fn mip_extent(extent: u32, mip: u32) -> u32
    requires { mip < 32 }
    ensures value { result ≡ extent_of_mip extent mip }
    ensures least { 1 ≤ result }
    ensures most { result ≤ max 1 extent }
{
    (extent >> mip).max(1)
}

/// The extents of a mip.
pub(crate) fn mip_extents(width: u32, height: u32, mip: u32) -> Extents
    requires width { width ≤ 4096 }
    requires height { height ≤ 4096 }
    requires mip { mip < 32 }
    ensures value { result ≡ extents_of_mip width height mip }
    ensures range { AreExtents result }
{
    Extents {
        width: mip_extent(width, mip),
        height: mip_extent(height, mip),
    }
}

impl Extents {
    /// The number of texels, each of one word.
    pub fn words(self) -> u32
        requires { AreExtents self }
        ensures value { result ≡ self.width * self.height }
        ensures bound { result ≤ 4096 * 4096 }
    {
        self.width * self.height
    }
}

/// The words of a mip.
pub(crate) fn mip_words(width: u32, height: u32, mip: u32) -> u32
    requires width { width ≤ 4096 }
    requires height { height ≤ 4096 }
    requires mip { mip < 32 }
    ensures value { result ≡ words_of_mip width height mip }
    ensures bound { result ≤ 4096 * 4096 }
{
    mip_extents(width, height, mip).words()
}

/// The words of the first mips together, in one layer.
pub(crate) fn mips_words(width: u32, height: u32, mips: u32) -> u64
    requires width { width ≤ 4096 }
    requires height { height ≤ 4096 }
    requires mips { mips ≤ 32 }
    ensures value { result ≡ words_of_mips width height mips }
    ensures bound { result ≤ mips * (4096 * 4096) }
{
    let mut words: u64 = 0;
    for mip in 0..mips {
        words += mip_words(width, height, mip) as u64;
    }
    words
}
