//! Sets of pipeline stages.

ghost use Rattle.std.specs.Prelude.{⊤, ◌≡◌, [], ◌∷◌, codes};
ghost use Rattle.vk_types.specs.Stages.{whole, meets, has_stage};

use bitflags::{Flag, Flags, bitflag_items};

/// A single name of a pipeline stage (VkPipelineStageFlagBits2).
#[derive(Clone, Copy, Debug, PartialEq, Eq)]
pub enum Stage {
    /// Every stage but `Host`.
    AllCommands,
    ComputeShader,
    Copy,
    Host,
}

/// A set of pipeline stages (VkPipelineStageFlags2).
#[derive(Clone, Copy, Debug, PartialEq, Eq)]
pub struct Stages(pub u32);

bitflag_items! {
    impl Stages: u32 {
        const ALL_COMMANDS = 1;
        const COMPUTE_SHADER = 2;
        const COPY = 4;
        const HOST = 8;
    }
}

impl Flags for Stages {
    type Bits = u32;

    ghost exact = { ⊤ };

    ghost table = { (codes "ALL_COMMANDS", 1) ∷ (codes "COMPUTE_SHADER", 2) ∷ (codes "COPY", 4) ∷ (codes "HOST", 8) ∷ [] };

    ghost set_of = { λ stages. stages.0 };

    fn flags<'a>() -> &'a [Flag<Stages>] {
        Stages::FLAGS
    }

    fn bits(&self) -> u32 {
        self.0
    }

    fn from_bits_retain(bits: u32) -> Stages {
        Stages(bits)
    }
}

impl Stages {
    /// The bits of the stages that the set stands for: ALL_COMMANDS is every stage but HOST.
    pub fn whole(self) -> u32
        ensures { result ≡ whole self }
    {
        if self.0 & 1 == 0 { self.0 } else { self.0 | 7 }
    }

    /// Whether two sets have a stage in common.
    pub fn meets(self, other: Stages) -> bool
        ensures { result ≡ meets self other }
    {
        self.whole() & other.whole() != 0
    }

    /// Whether the set has this name.
    pub fn has(self, stage: Stage) -> bool
        ensures { result ≡ has_stage self stage }
    {
        let named = match stage {
            Stage::AllCommands => Stages::ALL_COMMANDS,
            Stage::ComputeShader => Stages::COMPUTE_SHADER,
            Stage::Copy => Stages::COPY,
            Stage::Host => Stages::HOST,
        };
        self.0 & named.0 != 0
    }
}
