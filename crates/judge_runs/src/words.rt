//! Words, and what is done to them.

use dx_base::Home;
use dx_flags::Layout;

/// A word of a subresource; a buffer is one subresource. Places are counted from 0.
#[derive(Clone, Copy, PartialEq, Eq)]
pub struct Word {
    pub resource: u32,
    pub sub: u32,
    pub place: u64,
}

/// Words of a subresource, from a first one on.
#[derive(Clone, Copy)]
pub struct Stretch {
    pub resource: u32,
    pub sub: u32,
    pub first: u64,
    pub words: u64,
}

/// What is done to a word.
#[derive(Clone, Copy, PartialEq, Eq)]
pub enum Doing {
    Read,
    Write,
    /// The layout of its subresource changes.
    Change,
    /// The layout of its subresource is named.
    Name,
}

/// A subresource, with what the rules read of its resource.
#[derive(Clone, Copy)]
pub struct Sub {
    pub resource: u32,
    pub sub: u32,
    pub words: u64,
    pub home: Home,
    pub texture: bool,
    /// A texture of simultaneous access.
    pub shared: bool,
    pub layout: Layout,
}

impl Sub {
    /// All its words.
    pub fn whole(&self) -> Stretch {
        Stretch {
            resource: self.resource,
            sub: self.sub,
            first: 0,
            words: self.words,
        }
    }
}

impl Stretch {
    /// The word at a place of the stretch.
    pub fn word(&self, at: u64) -> Word {
        Word {
            resource: self.resource,
            sub: self.sub,
            place: self.first.saturating_add(at),
        }
    }
}

impl Doing {
    /// Whether two things done to one word need an order.
    pub fn meets(self, other: Doing) -> bool {
        match (self, other) {
            (Doing::Read, Doing::Read) => false,
            (Doing::Name, Doing::Change) => true,
            (Doing::Change, Doing::Name) => true,
            (Doing::Name, _) => false,
            (_, Doing::Name) => false,
            (_, _) => true,
        }
    }
}
