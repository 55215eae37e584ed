// The pulses that are in the window, and those of the symbols after them, in one row.
ghost use Rattle.std.specs.Prelude.{◌≡◌, ℕ, ◌+◌, ◌≤◌, length};
ghost use Rattle.numbers.specs.Firsts.{firsts};
ghost use Rattle.shaping.specs.Rate.{Known};
ghost use Rattle.pulse.specs.Pulse.{line_at};
ghost use Rattle.pulse.specs.Phases.{pulses_only, pulse_no};

use crate::FULL_SYMBOL;
use crate::window::{Ring, place_after};
use shaping::PerSymbol;

// Pulses that 48 symbols meet, and the rate of the samples that these make.
#[derive(Drop)]
pub(crate) struct Row {
    pub(crate) p: PerSymbol,
    pub(crate) pulses: [f32; 56],
    ghost known: { Known p },
}

impl Ring {
    // Whether all but every p-th place, from the second oldest on, is a zero of either sign: so whole symbols leave the window.
    pub(crate) fn has_pulses_only(&self) -> bool
        ensures { result ≡ pulses_only self.now.p (line_at self.now.values self.now.cursor) }
    {
        let step = self.p.samples();
        let places = 8 * step + 1;
        let mut all = true;
        let mut at = self.cursor;
        let mut phase: usize = 0;
        for _ in 0..places {
            all &= (phase == 1) | (self.values[at] == 0.0);
            at = place_after(at, places);
            phase = place_after(phase, step);
        }
        all
    }

    // Pulse n: the window has eight, and each symbol one after them.
    fn nth_pulse(&self, symbols: &[f32], n: usize) -> f32
        ensures { result ≡ pulse_no self.now.p (line_at self.now.values self.now.cursor) symbols.now n }
    {
        if n < 8 {
            let step = self.p.samples();
            let places = 8 * step + 1;
            let at = (self.cursor + (step * n + 1)) % places;
            return self.values[at];
        }
        let i = n - 8;
        if i < symbols.len() {
            symbols[i] * FULL_SYMBOL
        } else {
            0.0
        }
    }

    // The pulses that 48 symbols meet, from pulse `first` on.
    pub(crate) fn pulse_row(&self, symbols: &[f32], first: usize) -> Row
        requires { first ≤ length symbols.now }
        ensures keeps { result.p ≡ self.now.p }
        ensures reads { result.pulses ≡ firsts (λ (i : ℕ). pulse_no self.now.p (line_at self.now.values self.now.cursor) symbols.now (first + i)) 56 }
    {
        let mut pulses = [0.0f32; 56];
        for (i, pulse) in pulses.iter_mut().enumerate() {
            *pulse = self.nth_pulse(symbols, first + i);
        }
        Row { p: self.p, pulses }
    }
}
