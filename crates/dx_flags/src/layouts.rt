//! The layouts of textures.

ghost use Rattle.std.specs.Prelude.{◌≡◌};
ghost use Rattle.dx_flags.specs.Layouts.{layout_allows, allows};

use crate::accesses::Access;
use crate::atoms::Kind;

/// The layout of a subresource of a texture (D3D12_BARRIER_LAYOUT).
#[derive(Clone, Copy, Debug, PartialEq, Eq)]
pub enum Layout {
    /// The contents are lost.
    Undefined,
    Common,
    GenericRead,
    UnorderedAccess,
    ShaderResource,
    CopySource,
    CopyDest,
}

impl Layout {
    /// Whether the layout allows a kind of access, for a shared texture (one of simultaneous access) or a
    /// plain one.
    pub fn allows(self, kind: Kind, shared: bool) -> bool
        ensures { result ≡ layout_allows self kind shared }
    {
        match self {
            Layout::Undefined => false,
            Layout::Common => match kind {
                Kind::ShaderResource | Kind::CopySource | Kind::CopyDest => true,
                Kind::UnorderedAccess => shared,
                Kind::ConstantBuffer => false,
            },
            Layout::GenericRead => kind == Kind::ShaderResource || kind == Kind::CopySource,
            Layout::UnorderedAccess => kind == Kind::UnorderedAccess,
            Layout::ShaderResource => kind == Kind::ShaderResource,
            Layout::CopySource => kind == Kind::CopySource,
            Layout::CopyDest => kind == Kind::CopyDest,
        }
    }
}

/// The kinds.
const KINDS: [Kind; 5] = [
    Kind::UnorderedAccess,
    Kind::ShaderResource,
    Kind::ConstantBuffer,
    Kind::CopySource,
    Kind::CopyDest,
];

/// Whether each kind of a set of accesses is allowed in the layout, for a shared texture (one of
/// simultaneous access) or a plain one. COMMON has all kinds, which no layout allows; NO_ACCESS has none.
#[tactic(auto, unfolding(crate::specs::Layouts::allows))]
pub fn allowed(layout: Layout, access: Access, shared: bool) -> bool
    ensures { result ≡ allows layout access shared }
{
    KINDS.iter().all(|kind| layout.allows(*kind, shared) || !access.has_kind(*kind))
}
