// A rate as what a symbol has of its samples: ten at 48 kHz, five at 24 kHz.
use std::marker::Model;

#[derive(Clone, Copy)]
pub struct PerSymbol {
    samples: usize,
}

// A contract sees the number alone, and that it is one of the two.
impl Model for PerSymbol {
    ghost use Rattle.std.specs.Prelude.{ℕ};
    ghost use Rattle.shaping.specs.Rate.{Known};

    ghost Value = { ℕ };

    ghost view = { λ s. s.samples };

    ghost invariant = { λ s. Known s.samples };

    ghost inverse = { λ n. record { samples = n } };
}

impl PerSymbol {
    ghost use Rattle.shaping.specs.Rate.{PerSymbolOfSays, SamplesSays};

    // None at a rate that is none of the two.
    #[tactic(auto, using(crate::proofs::RateFacts::rate_known))]
    pub fn of(rate: u32) -> Option<PerSymbol>
        ensures { PerSymbolOfSays rate result }
    {
        if crate::is_rate(rate) {
            Some(PerSymbol {
                samples: crate::samples_in(rate),
            })
        } else {
            None
        }
    }

    pub fn samples(self) -> usize
        ensures { SamplesSays self result }
    {
        self.samples
    }
}
