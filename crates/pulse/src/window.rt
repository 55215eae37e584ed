// The window as a ring of 8p + 1 places, and what symbols leave in it: the last nine fill it, so no others are entered.
ghost use Rattle.std.specs.Prelude.{◌≡◌, ◌+◌, ◌*◌, ◌%◌, ◌<◌, length};
ghost use Rattle.shaping.specs.Rate.{Known, tap_count};
ghost use Rattle.pulse.specs.Pulse.{pulses, listed, pushed, after, line_at};

use crate::FULL_SYMBOL;
use shaping::PerSymbol;

// The window at a rate: values and a cursor, as callers of `push_symbols` keep them. The first 8p + 1 values are the ring, the oldest at the cursor.
#[derive(Drop)]
pub(crate) struct Ring {
    pub(crate) p: PerSymbol,
    pub(crate) values: [f32; 81],
    pub(crate) cursor: usize,
    ghost known: { Known p },
    ghost inside: { cursor < tap_count p },
}

// The next place of a ring, a number since a slice is read by it. A division would cost more.
pub(crate) fn place_after(at: usize, places: usize) -> usize
    requires { at < places }
    ensures { result ≡ (at + 1) % places }
{
    let next = at + 1;
    if next == places { 0 } else { next }
}

impl Ring {
    // The value takes the place of the window's oldest; the place after it is the oldest then.
    pub(crate) fn push(&mut self, value: f32)
        ensures keeps { self.new.p ≡ self.old.p }
        ensures pushes { line_at self.new.values self.new.cursor ≡ pushed self.old.p (line_at self.old.values self.old.cursor) value }
    {
        self.values[self.cursor] = value;
        self.cursor = place_after(self.cursor, 8 * self.p.samples() + 1);
    }

    fn enter_symbol(&mut self, symbol: f32)
        ensures keeps { self.new.p ≡ self.old.p }
        ensures enters { line_at self.new.values self.new.cursor ≡ after self.old.p (pulses self.old.p (λ _. symbol)) self.old.p (line_at self.old.values self.old.cursor) }
    {
        let mut value = symbol * FULL_SYMBOL;
        for _ in 0..self.p.samples() {
            self.push(value);
            value = 0.0;
        }
    }

    pub(crate) fn fill(&mut self, symbols: &[f32])
        requires { self.old.p * length symbols.now < 18446744073709551616 }
        ensures keeps { self.new.p ≡ self.old.p }
        ensures enters { line_at self.new.values self.new.cursor ≡ after self.old.p (pulses self.old.p (listed symbols.now)) (self.old.p * length symbols.now) (line_at self.old.values self.old.cursor) }
    {
        let passed = numbers::saturating_sub(symbols.len(), 9);
        let places = 8 * self.p.samples() + 1;
        self.cursor = (self.cursor + self.p.samples() * passed) % places;
        for symbol in &symbols[passed..] {
            self.enter_symbol(*symbol);
        }
    }
}
