//! Laws of legal barriers, and of what they cover. The functions do nothing.

ghost use Rattle.enhanced_barriers.specs.Laws.{LegalMeans, NoLegalLayoutIsLost, CopiesAreLegalEverywhere, CoversItsPairs};

/// A barrier is legal exactly where its sets are well formed, each side's access fits its sync, and its
/// list and its layouts suit it.
pub fn legal_means_what_it_says()
    ensures { LegalMeans }
{}

/// The layout after of a legal barrier of a texture is not UNDEFINED.
pub fn no_legal_layout_is_lost()
    ensures { NoLegalLayoutIsLost }
{}

/// What a copy list may record, each list may.
pub fn copies_are_legal_everywhere()
    ensures { CopiesAreLegalEverywhere }
{}

/// A barrier covers a pair exactly where its before side has the part and the kind.
pub fn covers_goes_by_pairs()
    ensures { CoversItsPairs }
{}
