//! The last write of a word.

ghost use Rattle.std.specs.Prelude.{◌≡◌, ◌&&◌};
ghost use Rattle.std.specs.Option.{option_copied};
ghost use Rattle.vk_sync_rules.specs.DoneAccesses.{last_write as last_of};
ghost use Rattle.vk_sync_rules.specs.Ranges.{has_word};

use crate::accesses::DoneAccess;
use crate::ranges::VkResource;

impl DoneAccess {
    /// Whether it writes a word.
    fn does_write(&self, resource: VkResource, word: u128) -> bool
        ensures { result ≡ (self.now.writes && has_word resource word self.now.range) }
    {
        self.writes && self.range.has_word(resource, word)
    }
}

/// The last of some accesses that writes a word, if one does.
pub(crate) fn last_write(
    accesses: &[DoneAccess],
    resource: VkResource,
    word: u128,
) -> Option<&DoneAccess>
    ensures { option_copied result ≡ last_of resource word accesses.now }
{
    let mut found = None;
    for access in accesses {
        if access.does_write(resource, word) {
            found = Some(access);
        }
    }
    found
}
