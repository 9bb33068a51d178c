//! Laws of stages and accesses. The functions do nothing.

ghost use Rattle.vk_types.specs.Supported.{SupportMeans};

/// Stages support accesses just where each access of the set is supported by some stage of the other.
pub fn support_means_what_it_says()
    ensures { SupportMeans }
{}
