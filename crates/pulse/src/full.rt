// The full way, whatever the window holds: each of its values is multiplied for each sample.
ghost use Rattle.std.specs.Prelude.{◌≡◌, ◌*◌, ◌≤◌, length};
ghost use Rattle.shaping.specs.Rate.{rate_at, tap_count};
ghost use Rattle.shaping.specs.Sum.{dot, in_ring};
ghost use Rattle.pulse.specs.Pulse.{pulses, listed, sample_of, line_at, Sent};

use crate::FULL_SYMBOL;
use crate::window::{Ring, place_after};

impl Ring {
    // The ring has as many places as there are taps, the oldest at the cursor.
    fn tap_sum(&self, table: &[f32]) -> f32
        requires { length table.now ≡ tap_count self.now.p }
        ensures { result ≡ dot table.now (in_ring (length table.now) self.now.values self.now.cursor) }
    {
        let mut at = self.cursor;
        let mut out: f32 = 0.0;
        for tap in table {
            out += *tap * self.values[at];
            at = place_after(at, table.len());
        }
        out
    }

    fn sample(&self) -> i16
        ensures { result ≡ sample_of (rate_at self.now.p) (line_at self.now.values self.now.cursor) }
    {
        if self.p.samples() == 10 {
            let table = shaping::rrc_48k();
            numbers::cut_to_i16(self.tap_sum(&table))
        } else {
            let table = shaping::rrc_24k();
            numbers::cut_to_i16(self.tap_sum(&table))
        }
    }

    // The Rust's `push_sample`: a symbol's samples go to the front of the room.
    fn push_symbol(&mut self, symbol: f32, room: &mut [i16])
        requires { self.old.p ≤ length room.old }
        ensures keeps { self.new.p ≡ self.old.p }
        ensures sent { Sent (rate_at self.old.p) (pulses self.old.p (λ _. symbol)) self.old.p (line_at self.old.values self.old.cursor) room.old (line_at self.new.values self.new.cursor) room.new }
    {
        let mut value = symbol * FULL_SYMBOL;
        for place in room[..self.p.samples()].iter_mut() {
            self.push(value);
            *place = self.sample();
            value = 0.0;
        }
    }

    // One symbol after the other, each into the room after the last.
    pub(crate) fn push_each(&mut self, symbols: &[f32], room: &mut [i16])
        requires { self.old.p * length symbols.now ≤ length room.old }
        ensures { Sent (rate_at self.old.p) (pulses self.old.p (listed symbols.now)) (self.old.p * length symbols.now) (line_at self.old.values self.old.cursor) room.old (line_at self.new.values self.new.cursor) room.new }
    {
        for (i, symbol) in symbols.iter().enumerate() {
            self.push_symbol(*symbol, &mut room[self.p.samples() * i..]);
        }
    }
}
