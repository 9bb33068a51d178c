//! What syncs and accesses are made of.

ghost use Rattle.std.specs.Prelude.{◌≡◌};
ghost use Rattle.dx_flags.specs.Parts.{part_of};
ghost use Rattle.dx_flags.specs.Kinds.{kind_of};

use crate::accesses::Access;
use crate::syncs::Sync;

/// A part of the work of a queue, which syncs stand for.
#[derive(Clone, Copy, Debug, PartialEq, Eq)]
pub enum Part {
    /// Copies.
    Copy,
    /// Dispatches.
    Compute,
    /// Clears of unordered access views.
    Clear,
}

impl Part {
    /// The part that a sync stands for, where it is COPY, COMPUTE_SHADING or CLEAR_UNORDERED_ACCESS_VIEW
    /// alone.
    #[tactic(auto, unfolding(crate::specs::Parts::part_of))]
    pub fn of(sync: Sync) -> Option<Part>
        ensures { result ≡ part_of sync }
    {
        match sync {
            Sync::COPY => Some(Part::Copy),
            Sync::COMPUTE_SHADING => Some(Part::Compute),
            Sync::CLEAR_UNORDERED_ACCESS_VIEW => Some(Part::Clear),
            _ => None,
        }
    }
}

/// A kind of access, which accesses stand for.
#[derive(Clone, Copy, Debug, PartialEq, Eq)]
pub enum Kind {
    /// Through an unordered access view.
    UnorderedAccess,
    /// Through a shader resource view.
    ShaderResource,
    /// Through a constant buffer view.
    ConstantBuffer,
    /// As the source of a copy.
    CopySource,
    /// As the destination of a copy.
    CopyDest,
}

impl Kind {
    /// The kind that an access stands for, where it is alone and neither COMMON nor NO_ACCESS.
    #[tactic(auto, unfolding(crate::specs::Kinds::kind_of))]
    pub fn of(access: Access) -> Option<Kind>
        ensures { result ≡ kind_of access }
    {
        match access {
            Access::UNORDERED_ACCESS => Some(Kind::UnorderedAccess),
            Access::SHADER_RESOURCE => Some(Kind::ShaderResource),
            Access::CONSTANT_BUFFER => Some(Kind::ConstantBuffer),
            Access::COPY_SOURCE => Some(Kind::CopySource),
            Access::COPY_DEST => Some(Kind::CopyDest),
            _ => None,
        }
    }
}
