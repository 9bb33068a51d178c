//! A trace, and its reader.

ghost use Rattle.trace_text.specs.Values.{IsWritten};

use d3d_machine::Call;
use dx_base::Seq;
use trace_lines::Declared;
use trace_words::Name;

/// What a text says: objects and the calls of threads. Each value is one that a text writes, with all names spelled
/// well, all ids those of objects, and all limits kept but that on the size of the whole text.
#[derive(Debug, Drop)]
pub struct Trace {
    /// The names of the objects, in order of declaration, and then those of the threads.
    pub names: Seq<Name>,
    /// The objects, in order of declaration.
    pub declared: Seq<Declared>,
    /// The calls of each thread, in order.
    pub scripts: Seq<Seq<Call>>,
    ghost written: { ∥ IsWritten (record { names = names; declared = declared; scripts = scripts }) ∥₁ },
}
