//! The second judge on small runs, with verdicts worked out by hand.

use crate::happenings::{Deed, Happening, Piece, What, Work};
use crate::second::Second;
use crate::words::{Stretch, Sub};
use d3d_judge::{Rule, Verdict};
use dx_base::{Home, Memory, ResourceId};
use dx_flags::{Access, Kind, Layout, Part, Sync};
use enhanced_barriers::{Barrier, Scope};
use std::alloc::Global;
use std::process::Abort;
use std::test::Fail;

mod chances;
mod histories;
mod scopes;

/// The resources: an upload buffer U of 256 words, a readback buffer B of 256, enhanced buffers D and E of four,
/// an enhanced texture X of 16 words, and one Y of two subresources of 16 words, both in layout COMMON.
const U: u32 = 0;

const B: u32 = 1;

const D: u32 = 2;

const E: u32 = 3;

const X: u32 = 4;

const Y: u32 = 5;

fn buffer(resource: u32, home: Home, words: u64) -> Sub {
    Sub {
        resource,
        sub: 0,
        words,
        home,
        texture: false,
        shared: false,
        layout: Layout::Common,
    }
}

fn texture(resource: u32, sub: u32) -> Sub {
    Sub {
        resource,
        sub,
        words: 16,
        home: Home::Enhanced,
        texture: true,
        shared: false,
        layout: Layout::Common,
    }
}

fn subs() -> [Sub; 7] {
    [
        buffer(U, Home::Upload, 256),
        buffer(B, Home::Readback, 256),
        buffer(D, Home::Enhanced, 4),
        buffer(E, Home::Enhanced, 4),
        texture(X, 0),
        texture(Y, 0),
        texture(Y, 1),
    ]
}

/// A judge of two threads, two queues and a fence at 0.
fn second(alloc: Global) -> Result<Second, Memory> {
    Second::new(alloc, 2, 2, &[0], &subs())
}

/// Feeds calls that nothing is read of.
fn feed_nothings(second: &mut Second, count: u64) -> Result<(), Memory> {
    for _call in 0..count {
        second.feed(Happening::Calls(0, Deed::Nothing))?;
    }
    Ok(())
}
