//! Which stages support which accesses.

ghost use Rattle.std.specs.Prelude.{◌≡◌};
ghost use Rattle.vk_types.specs.Support.{supports, supports_access, supports_group};

use crate::accesses::{Access, AccessGroup, Accesses};
use crate::stages::{Stage, Stages};

/// All names of stages.
const STAGES: [Stage; 4] = [
    Stage::AllCommands,
    Stage::ComputeShader,
    Stage::Copy,
    Stage::Host,
];

/// All names of accesses.
const ACCESSES: [Access; 9] = [
    Access::MemoryRead,
    Access::MemoryWrite,
    Access::ShaderStorageRead,
    Access::ShaderStorageWrite,
    Access::ShaderRead,
    Access::UniformRead,
    Access::TransferRead,
    Access::TransferWrite,
    Access::HostRead,
];

/// Whether each access of a set is supported by some stage of another (Vulkan 1.3, 7.1.3, the table of
/// supported access types).
pub fn supports(stages: Stages, accesses: Accesses) -> bool
    ensures { result ≡ supports stages accesses }
{
    ACCESSES.iter().all(|access| !accesses.has(*access) || supports_access(stages, *access))
}

/// Whether some stage of a set supports an access.
pub fn supports_access(stages: Stages, access: Access) -> bool
    ensures { result ≡ supports_access stages access }
{
    STAGES.iter().any(|stage| stages.has(*stage) && supports_group(*stage, access.group()))
}

/// Whether a stage supports the accesses of a group.
fn supports_group(stage: Stage, group: AccessGroup) -> bool
    ensures { result ≡ supports_group stage group }
{
    match (stage, group) {
        (Stage::AllCommands, AccessGroup::Host) => false,
        (Stage::AllCommands, _) => true,
        (_, AccessGroup::Memory) => true,
        (Stage::ComputeShader, group) => group == AccessGroup::Shader,
        (Stage::Copy, group) => group == AccessGroup::Transfer,
        (Stage::Host, group) => group == AccessGroup::Host,
    }
}
