//! A chooser that gives the numbers of a generator of random numbers.

ghost use Rattle.std.specs.Prelude.{◌≡◌, [], ◌∷◌, ◌++◌, length, None, Some, IfOk, OnErr};
ghost use Rattle.chooser.specs.Seeded.{seed_of, seeded, seeded_word};

use crate::choice::Chooser;
use dx_base::Memory;
use rand_core::SeedableRng;
use rand_core::utils::NextWord;
use rand_pcg::Lcg128Xsl64;
use std::alloc::Global;
use std::marker::Model;

/// A chooser that gives the words of a PCG generator (XSL RR 128/64), made from the number of the
/// start. Before any start it is as if started at 0.
#[derive(Debug, Drop)]
pub struct PcgChooser {
    started: Option<u64>,
    given: Vec<u64>,
    generator: Lcg128Xsl64,
}

impl Model for PcgChooser {
    ghost use Rattle.std.specs.Prelude.{◌≡◌, length};
    ghost use Rattle.chooser.specs.Seeded.{PcgView, seed_of, seeded_after};

    ghost Value = { PcgView };

    ghost view = { λ c. record { started = c.started; given = c.given.items } };

    ghost invariant = { λ c. c.generator ≡ seeded_after (seed_of c.started) (length c.given.items) };
}

#[tactic(auto, unfolding(crate::specs::Seeded::seeded))]
fn generator_of(number: u64) -> Lcg128Xsl64
    ensures { result ≡ seeded number }
{
    Lcg128Xsl64::seed_from_u64(number)
}

impl PcgChooser {
    /// A chooser that gave no number. It takes no memory.
    pub fn new(alloc: Global) -> PcgChooser
        ensures { result ≡ record { started = None; given = [] } }
    {
        PcgChooser {
            started: None,
            given: Vec::new(alloc),
            generator: generator_of(0),
        }
    }

    /// The numbers given since the last start.
    pub fn given(&self) -> &[u64]
        ensures { result.now ≡ self.now.given }
    {
        self.given.as_slice()
    }
}

impl Chooser for PcgChooser {
    ghost given = { λ c. c.given };

    ghost started = { λ c. c.started };

    fn start(&mut self, number: u64)
        ensures { self.new ≡ record { started = Some number; given = [] } }
    {
        self.started = Some(number);
        self.given.clear();
        self.generator = generator_of(number);
    }

    fn next(&mut self) -> Result<u64, Memory>
        ensures number { IfOk result (λ n. n ≡ seeded_word (seed_of self.old.started) (length self.old.given)) }
        ensures ok { IfOk result (λ n. self.new ≡ record self.old { given = self.old.given ++ n ∷ [] }) }
        ensures same { OnErr result (self.new ≡ self.old) }
    {
        self.given.reserve(1)?;
        let number = self.generator.next_word();
        match self.given.push(number) {
            Ok(()) => Ok(number),
            Err(_) => unreachable!(),
        }
    }
}
