//! Numbers that look like chance, the same for each seed.

use rand_core::SeedableRng;
use rand_core::utils::NextWord;
use rand_pcg::Lcg128Xsl64;

/// A generator of numbers.
#[derive(Drop)]
pub struct Dice {
    generator: Lcg128Xsl64,
}

impl Dice {
    pub fn new(seed: u64) -> Dice {
        Dice {
            generator: Lcg128Xsl64::seed_from_u64(seed),
        }
    }

    /// A number below that many sides; 0 where there are none.
    pub fn roll(&mut self, sides: u32) -> u32 {
        let number = (self.generator.next_word() >> 32) as u32;
        number.checked_rem(sides).unwrap_or(0)
    }

    /// Whether one of so many chances comes.
    pub fn hits(&mut self, chances: u32) -> bool {
        self.roll(chances) == 0
    }
}
