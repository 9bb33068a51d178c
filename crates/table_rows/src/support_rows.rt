//! Tables of stages and accesses, and a copy of a batch. What is expected comes from Vulkan 1.3, 7.1.

use dx_base::{Routine, Seq};
use std::test::Fail;
use vk_types::{
    Access, Accesses, Batch, Count, Register, Stage, Stages, VkCommand, supports, supports_access,
};

/// Each single access, with the stages that support it.
const SUPPORT: [(Accesses, u32); 9] = [
    (Accesses::MEMORY_READ, 15),
    (Accesses::MEMORY_WRITE, 15),
    (Accesses::SHADER_STORAGE_READ, 3),
    (Accesses::SHADER_STORAGE_WRITE, 3),
    (Accesses::SHADER_READ, 3),
    (Accesses::UNIFORM_READ, 3),
    (Accesses::TRANSFER_READ, 5),
    (Accesses::TRANSFER_WRITE, 5),
    (Accesses::HOST_READ, 8),
];

#[test]
fn each_access_has_its_stages(rt: HostRuntime) {
    for (access, supporting) in SUPPORT {
        for stage in [
            Stages::ALL_COMMANDS,
            Stages::COMPUTE_SHADER,
            Stages::COPY,
            Stages::HOST,
        ] {
            assert_eq!(rt;
                supports(stage, access),
                supporting & stage.0 != 0,
                "{stage:?} {access:?}"
            );
        }
        assert!(rt; !supports(Stages(0), access), "{access:?}");
    }
}

#[test]
fn each_access_of_a_set_needs_a_stage(rt: HostRuntime) {
    let rows = [
        (Stages::COPY.0 + Stages::HOST.0, 64 + 256, true),
        (Stages::COPY.0 + Stages::COMPUTE_SHADER.0, 64 + 8, true),
        (Stages::COPY.0, 64 + 8, false),
        (Stages::HOST.0, 256 + 128, false),
        (Stages::ALL_COMMANDS.0, 255, true),
        (Stages::ALL_COMMANDS.0, 511, false),
        (Stages::ALL_COMMANDS.0 + Stages::HOST.0, 511, true),
    ];
    for (stages, accesses, supported) in rows {
        assert_eq!(rt;
            supports(Stages(stages), Accesses(accesses)),
            supported,
            "{stages} {accesses}"
        );
    }
}

#[test]
fn all_commands_is_every_stage_but_host(rt: HostRuntime) {
    let rows = [
        (Stages::ALL_COMMANDS, Stages::ALL_COMMANDS, true),
        (Stages::ALL_COMMANDS, Stages::COMPUTE_SHADER, true),
        (Stages::COPY, Stages::ALL_COMMANDS, true),
        (Stages::ALL_COMMANDS, Stages::HOST, false),
        (Stages::HOST, Stages::HOST, true),
        (Stages::COPY, Stages::COMPUTE_SHADER, false),
        (Stages(0), Stages::ALL_COMMANDS, false),
    ];
    for (one, other, meet) in rows {
        assert_eq!(rt; one.meets(other), meet, "{one:?} {other:?}");
    }
}

#[test]
fn a_set_has_its_names(rt: HostRuntime) {
    let stages = Stages(Stages::COPY.0 + Stages::HOST.0);
    assert!(rt; stages.has(Stage::Copy) && stages.has(Stage::Host));
    assert!(rt; !stages.has(Stage::ComputeShader) && !stages.has(Stage::AllCommands));
    let accesses = Accesses::TRANSFER_READ;
    assert!(rt; accesses.has(Access::TransferRead) && !accesses.has(Access::MemoryRead));
    assert!(rt;
        supports_access(stages, Access::TransferRead)
            && !supports_access(stages, Access::ShaderRead)
    );
}

#[test]
fn a_copy_of_a_batch_is_equal(rt: HostRuntime) -> Result<(), Fail> {
    let alloc = rt.alloc();
    let dispatch = VkCommand::Dispatch {
        routine: Routine::Move,
        count: Count::Number(4),
        t0: Register::Root {
            buffer: 0,
            first: 2,
        },
        t1: Register::Unbound,
        u0: Register::Slot { heap: 1, slot: 5 },
        b0: Register::Constant(7),
    };
    let batch = Batch {
        queue: 1,
        number: 3,
        waits: Seq::from_vec(vec![in alloc; (0, 2)]?),
        commands: Seq::from_vec(vec![in alloc; dispatch]?),
        sets: Seq::from_vec(vec![in alloc; (1, 3)]?),
    };
    let copy = batch.copied(alloc)?;
    assert_eq!(rt; copy, batch);
    Ok(())
}
