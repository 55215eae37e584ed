// The samples of 48 symbols phase by phase: all first ones, all second ones, .. A phase's sums are made side by side.
ghost use Rattle.std.specs.Prelude.{◌≡◌, ℕ, ◌*◌, ◌≤◌, ◌<◌, length, get_or};
ghost use Rattle.std.specs.Float.{nan};
ghost use Rattle.std.specs.Float.Ieee.{to_signed};
ghost use Rattle.numbers.specs.Firsts.{firsts, written};
ghost use Rattle.shaping.specs.Rate.{rate_at};
ghost use Rattle.pulse.specs.Phases.{first_pulse_lem, phase_sum, phase_cut};

use crate::row::Row;

// The first sample of a symbol still meets the pulse that leaves the window, the others do not.
fn first_pulse(j: usize) -> usize
    ensures is { result ≡ first_pulse_lem j }
    ensures few { result ≤ 1 }
{
    if j == 0 { 0 } else { 1 }
}

fn put_cuts(sums: &[f32; 48], room: &mut [i16])
    requires { 48 ≤ length room.old }
    ensures { room.new ≡ written (λ (k : ℕ). to_signed 15 (get_or sums.now k nan)) 48 room.old }
{
    for (k, sum) in sums.iter().enumerate() {
        room[k] = numbers::cut_to_i16(*sum);
    }
}

impl Row {
    // The tap sums of sample j of each symbol, by the taps that meet a pulse: nine for the first sample, eight for the others.
    fn phase_sums(&self, table: &[f32], j: usize) -> [f32; 48]
        requires { (table.now ≡ (rate_at self.now.p).taps) × (j < self.now.p) }
        ensures { result ≡ firsts (phase_sum (rate_at self.now.p) self.now.pulses j) 48 }
    {
        let step = self.p.samples();
        let lead = first_pulse(j);
        let first = step * lead - j;
        let count = 9 - lead;
        let mut sums = [0.0f32; 48];
        for q in 0..count {
            let tap = table[first + step * q];
            let from = lead + q;
            for k in 0..48 {
                sums[k] += tap * self.pulses[from + k];
            }
        }
        sums
    }

    // One phase after the other.
    fn put_by_table(&self, table: &[f32], room: &mut [i16])
        requires { (table.now ≡ (rate_at self.now.p).taps) × (48 * self.now.p ≤ length room.old) }
        ensures { room.new ≡ written (phase_cut (rate_at self.now.p) self.now.pulses) (48 * self.now.p) room.old }
    {
        for j in 0..self.p.samples() {
            let sums = self.phase_sums(table, j);
            put_cuts(&sums, &mut room[48 * j..]);
        }
    }

    pub(crate) fn put_phases(&self, room: &mut [i16])
        requires { 48 * self.now.p ≤ length room.old }
        ensures { room.new ≡ written (phase_cut (rate_at self.now.p) self.now.pulses) (48 * self.now.p) room.old }
    {
        if self.p.samples() == 10 {
            let table = shaping::rrc_48k();
            self.put_by_table(&table, room);
        } else {
            let table = shaping::rrc_24k();
            self.put_by_table(&table, room);
        }
    }
}
