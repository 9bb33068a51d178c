//! The names of things.

ghost use Rattle.std.specs.Prelude.{◌≡◌};

use crate::cause::Cause;
use crate::kind::Kind;
use trace_words::Name;

/// What words name.
pub trait Naming {
    ghost use Rattle.line_forms.specs.Reading.{Naming};

    ghost names: { Self → Naming };

    /// The number of the thing of that kind that a word names.
    fn number(&self, kind: Kind, word: &[u8]) -> Result<u32, Cause>
        ensures { result ≡ (names self.now).number kind word.now };

    /// The name that a word declares.
    fn fresh(&self, word: &[u8]) -> Result<Name, Cause>
        ensures { result ≡ (names self.now).fresh word.now };
}

/// The names of things.
pub trait Named {
    ghost use Rattle.line_forms.specs.Printing.{Known};

    ghost known: { Self → Known };

    /// The name of a thing.
    fn name(&self, kind: Kind, number: u32) -> &[u8]
        ensures { result.now ≡ known self.now kind number };
}
