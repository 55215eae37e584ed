// The samples of symbols whose window holds pulses only, 48 symbols at a time.
ghost use Rattle.std.specs.Prelude.{◌≡◌, true, ℕ, ◌+◌, ◌*◌, ◌≤◌, ◌<◌, pos, length, get_or};
ghost use Rattle.numbers.specs.Firsts.{written};
ghost use Rattle.shaping.specs.Rate.{rate_at};
ghost use Rattle.pulse.specs.Pulse.{pulses, listed, sample_at, line_at};
ghost use Rattle.pulse.specs.Phases.{pulses_only, row_sample, in_turn};

use crate::row::Row;
use crate::window::Ring;
use shaping::PerSymbol;

// The samples of symbol s, one of each phase.
fn put_symbol(p: PerSymbol, cuts: &[i16], s: usize, room: &mut [i16])
    requires { (s < 48) × (48 * p ≤ length cuts.now) × (p ≤ length room.old) }
    ensures { room.new ≡ written (λ (j : ℕ). get_or cuts.now (48 * j + s) (pos 0)) p room.old }
{
    for j in 0..p.samples() {
        room[j] = cuts[48 * j + s];
    }
}

// The phases' samples in the order in which they are sent, of `count` symbols: no buffer's length, since all phases have 48.
fn put_in_turn(p: PerSymbol, cuts: &[i16], count: usize, room: &mut [i16])
    requires { (count ≤ 48) × (48 * p ≤ length cuts.now) × (p * count ≤ length room.old) }
    ensures { room.new ≡ written (in_turn p cuts.now) (p * count) room.old }
{
    for s in 0..count {
        put_symbol(p, cuts, s, &mut room[p.samples() * s..]);
    }
}

impl Row {
    // The samples of the row's first symbols, `count` of them: no buffer's length, since each row has pulses for 48.
    fn put_block(&self, count: usize, room: &mut [i16])
        requires { (count ≤ 48) × (self.now.p * count ≤ length room.old) }
        ensures { room.new ≡ written (row_sample (rate_at self.now.p) self.now.pulses) (self.now.p * count) room.old }
    {
        let mut cuts = [0i16; 480];
        self.put_phases(&mut cuts);
        put_in_turn(self.p, &cuts, count, room);
    }
}

impl Ring {
    pub(crate) fn put_samples(&self, symbols: &[f32], room: &mut [i16])
        requires { (self.now.p * length symbols.now ≤ length room.old) × (pulses_only self.now.p (line_at self.now.values self.now.cursor) ≡ true) }
        ensures { room.new ≡ written (sample_at (rate_at self.now.p) (pulses self.now.p (listed symbols.now)) (line_at self.now.values self.now.cursor)) (self.now.p * length symbols.now) room.old }
    {
        let n = symbols.len();
        for s in (0..n).step_by(48) {
            let row = self.pulse_row(symbols, s);
            let count = usize::min(48, n - s);
            row.put_block(count, &mut room[self.p.samples() * s..]);
        }
    }
}
