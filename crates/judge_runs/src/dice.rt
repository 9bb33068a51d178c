//! Numbers that look like chance, the same for each seed.

/// A generator of numbers.
#[derive(Clone, Copy)]
pub struct Dice {
    state: u64,
}

impl Dice {
    pub fn new(seed: u64) -> Dice {
        Dice {
            state: seed
                .wrapping_mul(2_862_933_555_777_941_757)
                .wrapping_add(3_037_000_493),
        }
    }

    /// A number below that many sides; 0 where there are none.
    pub fn roll(&mut self, sides: u64) -> u64 {
        self.state = self
            .state
            .wrapping_mul(6_364_136_223_846_793_005)
            .wrapping_add(1_442_695_040_888_963_407);
        (self.state >> 33).checked_rem(sides).unwrap_or(0)
    }

    /// 0 or 1.
    pub fn flip(&mut self) -> u32 {
        if self.roll(2) == 0 { 0 } else { 1 }
    }
}
