//! The values of timelines, by their numbers.

ghost use Rattle.std.specs.Prelude.{◌≡◌, slice_index_or, slice_set};
ghost use Rattle.vk_types.specs.Timelines.{reached, after_sets};

use dx_base::Seq;

/// The value of a timeline; 0 for one that is not there.
pub fn timeline_value(timelines: &Seq<u64>, timeline: u32) -> u64
    ensures { result ≡ slice_index_or timelines.now timeline 0 }
{
    if (timeline as usize) < timelines.len() {
        *timelines.at(timeline as usize)
    } else {
        0
    }
}

/// Whether each wait has its value reached (Vulkan 1.3, 7.4.2).
pub fn are_reached(timelines: &Seq<u64>, waits: &Seq<(u32, u64)>) -> bool
    ensures { result ≡ reached timelines.now waits.now }
{
    waits
        .as_slice()
        .iter()
        .all(|wait| wait.1 <= timeline_value(timelines, wait.0))
}

/// Sets timelines to values, one pair after the other; a timeline that is not there stays so (Vulkan 1.3, 7.4.1).
pub fn set_timelines(timelines: &mut Seq<u64>, sets: &Seq<(u32, u64)>)
    ensures { timelines.new ≡ after_sets sets.now timelines.old }
{
    for i in 0..sets.len() {
        let (timeline, value) = *sets.at(i);
        set_timeline(timelines, timeline, value);
    }
}

/// Sets a timeline.
fn set_timeline(timelines: &mut Seq<u64>, timeline: u32, value: u64)
    ensures { timelines.new ≡ slice_set timelines.old timeline value }
{
    if (timeline as usize) < timelines.len() {
        *timelines.at_mut(timeline as usize) = value;
    }
}
