//! What sets of stages and accesses stand for, which stages support which accesses, and which layouts allow them.

use vk_types::{Access, Accesses, Stage, Stages, VkLayout};

/// The single stages.
pub(crate) const STAGES: [Stage; 3] = [Stage::ComputeShader, Stage::Copy, Stage::Host];

/// The single accesses.
pub(crate) const ACCESSES: [Access; 7] = [
    Access::ShaderStorageRead,
    Access::ShaderStorageWrite,
    Access::ShaderRead,
    Access::UniformRead,
    Access::TransferRead,
    Access::TransferWrite,
    Access::HostRead,
];

/// The accesses that stand for others.
const WHOLE: [Access; 2] = [Access::MemoryRead, Access::MemoryWrite];

/// Whether a set stands for a stage: ALL_COMMANDS for every one but HOST.
pub(crate) fn names_stage(set: Stages, stage: Stage) -> bool {
    set.has(stage) || (set.has(Stage::AllCommands) && stage != Stage::Host)
}

/// Whether an access writes.
fn does_write(access: Access) -> bool {
    access == Access::ShaderStorageWrite
        || access == Access::TransferWrite
        || access == Access::MemoryWrite
}

/// Whether a set stands for an access: MEMORY_READ for every read, MEMORY_WRITE for every write.
pub(crate) fn names_access(set: Accesses, access: Access) -> bool {
    let all = if does_write(access) {
        Access::MemoryWrite
    } else {
        Access::MemoryRead
    };
    set.has(access) || set.has(all)
}

/// Whether a layout allows an access.
pub(crate) fn allows(layout: VkLayout, access: Access) -> bool {
    match layout {
        VkLayout::Undefined => false,
        VkLayout::General => true,
        VkLayout::ShaderReadOnlyOptimal => access == Access::ShaderRead,
        VkLayout::TransferSrcOptimal => access == Access::TransferRead,
        VkLayout::TransferDstOptimal => access == Access::TransferWrite,
    }
}

/// Whether an access is one of shaders.
fn is_of_shaders(access: Access) -> bool {
    access == Access::ShaderStorageRead
        || access == Access::ShaderStorageWrite
        || access == Access::ShaderRead
        || access == Access::UniformRead
}

/// Whether a stage supports an access that is no MEMORY access.
fn supports(stage: Stage, access: Access) -> bool {
    match stage {
        Stage::AllCommands => access != Access::HostRead,
        Stage::Copy => access == Access::TransferRead || access == Access::TransferWrite,
        Stage::Host => access == Access::HostRead,
        Stage::ComputeShader => is_of_shaders(access),
    }
}

/// Whether some stage of a set supports an access that is no MEMORY access.
fn some_supports(stages: Stages, access: Access) -> bool {
    if stages.has(Stage::AllCommands) && supports(Stage::AllCommands, access) {
        return true;
    }
    for stage in STAGES {
        if stages.has(stage) && supports(stage, access) {
            return true;
        }
    }
    false
}

/// Whether a set has some stage.
fn has_some(stages: Stages) -> bool {
    stages.has(Stage::AllCommands)
        || stages.has(Stage::ComputeShader)
        || stages.has(Stage::Copy)
        || stages.has(Stage::Host)
}

/// Whether a side of a barrier names an access that none of its stages supports.
pub(crate) fn is_unsupported(stages: Stages, accesses: Accesses) -> bool {
    for access in WHOLE {
        if accesses.has(access) && !has_some(stages) {
            return true;
        }
    }
    for access in ACCESSES {
        if accesses.has(access) && !some_supports(stages, access) {
            return true;
        }
    }
    false
}
