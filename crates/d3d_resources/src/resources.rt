//! Resources, and their subresources.

ghost use Rattle.std.specs.Prelude.{◌≡◌, ◌<◌, ◌≤◌, IfSome};
ghost use Rattle.d3d_resources.specs.Mips.{AreExtents};
ghost use Rattle.d3d_resources.specs.Resources.{IsResource, words_of_resource, subs_of, words_of_sub, words_of_subs, extents_of};

use crate::mips::{Extents, mip_extents, mip_words, mips_words};
use dx_base::Home;
use dx_flags::{Layout, State};

/// How a texture begins, and which barriers it takes.
#[derive(Clone, Copy, Debug, PartialEq, Eq)]
pub enum Start {
    /// In a state. It takes transitions of states.
    Legacy(State),
    /// In a layout. It takes enhanced barriers.
    Enhanced(Layout),
}

/// A buffer or a texture, in words of four bytes. A texel is a word.
#[derive(Clone, Copy, Debug, PartialEq, Eq)]
pub enum Resource {
    /// A buffer of that many words.
    Buffer {
        home: Home,
        words: u32,
    },
    /// A texture. `width` and `height` are those of mip 0. A shared texture may be accessed by several
    /// queues at a time (D3D12_RESOURCE_FLAG_ALLOW_SIMULTANEOUS_ACCESS).
    Texture {
        start: Start,
        width: u32,
        height: u32,
        mips: u32,
        layers: u32,
        shared: bool,
    },
}

impl Resource {
    /// The words of all subresources together.
    pub fn words(&self) -> u32
        requires { IsResource self.now }
        ensures value { result ≡ words_of_resource self.now }
        ensures sum { result ≡ words_of_subs self.now (subs_of self.now) }
        ensures bound { result ≤ 262144 }
    {
        match *self {
            Resource::Buffer { words, .. } => words,
            Resource::Texture {
                width,
                height,
                mips,
                layers,
                ..
            } => (mips_words(width, height, mips) * layers as u64) as u32,
        }
    }

    /// How many subresources there are. A buffer is one; each layer of a texture has its mips.
    pub fn subs(&self) -> u32
        requires { IsResource self.now }
        ensures { result ≡ subs_of self.now }
    {
        match *self {
            Resource::Buffer { .. } => 1,
            Resource::Texture { mips, layers, .. } => mips * layers,
        }
    }

    /// The words of a subresource. Its index is its mip plus its layer times the number of mips
    /// (D3D12CalcSubresource).
    pub fn sub_words(&self, sub: u32) -> u32
        requires valid { IsResource self.now }
        requires exists { sub < subs_of self.now }
        ensures value { result ≡ words_of_sub self.now sub }
        ensures bound { result ≤ 262144 }
    {
        match *self {
            Resource::Buffer { words, .. } => words,
            Resource::Texture {
                width,
                height,
                mips,
                ..
            } => mip_words(width, height, sub % mips),
        }
    }

    /// The extents of a texture's subresource. None exactly where there is none of that index, and for
    /// a buffer.
    pub fn extents(&self, sub: u32) -> Option<Extents>
        requires { IsResource self.now }
        ensures value { result ≡ extents_of self.now sub }
        ensures range { IfSome result (λ extents. AreExtents extents) }
    {
        match *self {
            Resource::Buffer { .. } => None,
            Resource::Texture {
                width,
                height,
                mips,
                layers,
                ..
            } => {
                if sub < mips * layers {
                    Some(mip_extents(width, height, sub % mips))
                } else {
                    None
                }
            }
        }
    }
}
