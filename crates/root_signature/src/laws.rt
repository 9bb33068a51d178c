//! Laws of root signatures. The functions do nothing.

ghost use Rattle.root_signature.specs.Laws.{SignaturesAreSound};

/// A signature costs at most 64, has at most 64 parameters, none of whose ranges passes register 63, and has each
/// register of a class in at most one place.
pub fn signatures_are_sound()
    ensures { SignaturesAreSound }
{}
