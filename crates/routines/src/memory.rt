//! Memory, as routines read it.

ghost use Rattle.std.specs.Prelude.{◌≡◌, ℕ};
ghost use Rattle.routines.specs.Cells.{Cell, cell};

use dx_base::ResourceId;

/// The words of all resources.
pub trait WordsOf {
    /// The number of each word.
    ghost number: { Self → Cell → ℕ };

    /// The number of a word of a subresource, counted from 0.
    fn get(&self, resource: ResourceId, sub: u32, word: u32) -> u32
        ensures { result ≡ number self.now (cell resource sub word) };
}
