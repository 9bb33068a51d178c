//! Tests of the last writes of words.

ghost use Rattle.std.specs.Prelude.{◌≡◌, Bool};
ghost use Rattle.vk_sync_rules.specs.Rules.{of_each, each_last as is_each_last};
ghost use Rattle.vk_sync_rules.specs.DoneAccesses.{last_write as last_of};
ghost use Rattle.vk_sync_rules.specs.declared.accesses.DoneAccess.{DoneAccess};

use crate::accesses::DoneAccess;
use crate::last_writes::last_write;
use crate::ranges::{VkResource, WordRange};

/// A test of a write.
pub(crate) trait WriteTest {
    ghost test: { Self → DoneAccess → Bool };

    fn holds(&self, write: &DoneAccess) -> bool
        ensures { result ≡ test self.now write.now };
}

/// A write is available.
#[derive(Clone, Copy)]
pub(crate) struct IsAvailable;

impl WriteTest for IsAvailable {
    ghost test = { λ _ w. w.available };

    fn holds(&self, write: &DoneAccess) -> bool {
        write.available
    }
}

/// Whether the last write of a word, if there is one, passes a test.
fn last_passes<T: WriteTest>(
    accesses: &[DoneAccess],
    resource: VkResource,
    word: u128,
    test: &T,
) -> bool
    ensures { result ≡ of_each (T.test test.now) (last_of resource word accesses.now) }
{
    match last_write(accesses, resource, word) {
        None => true,
        Some(write) => test.holds(write),
    }
}

/// Whether each last write of the words of a range passes a test.
pub(crate) fn each_last<T: WriteTest>(accesses: &[DoneAccess], range: WordRange, test: &T) -> bool
    ensures { result ≡ is_each_last (T.test test.now) range accesses.now }
{
    for k in 0..range.count {
        let word = range.first as u128 + k as u128;
        if !last_passes(accesses, range.resource, word, test) {
            return false;
        }
    }
    true
}
