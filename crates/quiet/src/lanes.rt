// The samples of a block by their marks, and the values that a search reads.
ghost use Rattle.std.specs.Prelude.{◌≡◌, ℕ, ◌+◌, ◌*◌, ◌≤◌, ◌<◌, leb, length, get_or};
ghost use Rattle.numbers.specs.Below.{any_below};
ghost use Rattle.numbers.specs.Firsts.{firsts};
ghost use Rattle.decode.specs.Parts.{values_of};
ghost use Rattle.look.specs.Marks.{eight_from};
ghost use Rattle.quiet.specs.Parts.{carries, Marked, NextMark, LastCarrier};

use protocol::SyncBurst;

// The eight values of the sample at this place.
pub(crate) fn eight(p: usize, row: &[f32], at: usize) -> [f32; 8]
    requires { (p ≤ 10) × (at + 7 * p < length row.now) }
    ensures { result ≡ firsts (eight_from p row.now at) 8 }
{
    let mut values = [0.0f32; 8];
    for (i, value) in values.iter_mut().enumerate() {
        let place = at + p * i;
        *value = row[place];
    }
    values
}

// Whether one of the two bursts matches that set the timer alone.
fn is_carrier(values: [f32; 8]) -> bool
    ensures { result ≡ carries (values_of values) }
{
    let unsigned = decode::unsign_zeros(values);
    let spread = decode::spread_of(unsigned);
    let preamble = decode::compare(SyncBurst::Preamble, unsigned, spread);
    let end = decode::compare(SyncBurst::EndOfTransmission, unsigned, spread);
    (preamble.diff < 100.0) | (end.diff < 100.0)
}

#[tactic(auto, unfolding(numbers::specs::Below::any_below))]
pub(crate) fn has_mark(marks: &[u32; 48], least: u32) -> bool
    ensures { result ≡ any_below 48 (λ (k : ℕ). leb least (get_or marks.now k 0)) }
{
    let mut any = false;
    for mark in marks {
        any |= least <= *mark;
    }
    any
}

// The next sample to be searched, from this one on: this one while a candidate is held, and else the first that is marked, or `n` where none
// of the first `n` is.
pub(crate) fn next_marked(marks: &[u32; 48], from: usize, n: usize, held: bool) -> usize
    requires { (from ≤ n) × (n ≤ 48) }
    ensures { NextMark marks.now from n held result }
{
    if held {
        return from;
    }
    match marks[from..n].iter().position(|mark| *mark != 0) {
        Some(ahead) => from + ahead,
        None => n,
    }
}

// How many samples there are up to the last at which a burst carries, that one among them; 0 where there is none.
pub(crate) fn last_carrier(p: usize, row: &[f32], marks: &[u32; 48], at: usize, n: usize) -> usize
    requires { (p ≤ 10) × (n ≤ 48) × (at + (7 * p + 48) ≤ length row.now) × Marked p row.now at n marks.now }
    ensures { LastCarrier p row.now at n result }
{
    for k in (0..n).rev() {
        if marks[k] != 0 && is_carrier(eight(p, row, at + k)) {
            return k + 1;
        }
    }
    0
}
