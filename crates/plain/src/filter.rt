// F(k), each time from the recording itself: nothing is kept.
ghost use Rattle.std.specs.Prelude.{◌≡◌, ◌*◌, ◌-◌, ◌≤◌, ◌<◌};
ghost use Rattle.std.specs.Float.{binary32};
ghost use Rattle.std.specs.Float.Ieee.{of_int};
ghost use Rattle.numbers.specs.Firsts.{firsts};
ghost use Rattle.demodulator.specs.Spans.{eight};
ghost use Rattle.demodulator_run.specs.Filter.{sample_no_lem, filtered};
ghost use Rattle.plain.specs.Values.{from_whole};

use crate::heard::Heard;

// Samples are numbered from 1. One before the first or after the last is 0.
fn sample_no(recording: &[i16], number: usize) -> f32
    ensures { result ≡ of_int binary32 (sample_no_lem recording.now number) }
{
    if number == 0 {
        return 0.0;
    }
    let at = number - 1;
    if recording.len() <= at {
        return 0.0;
    }
    recording[at] as f32
}

impl Heard<'_> {
    // F(k): from 0.0, tap i times sample k - 8p + i, in order; 0.0 for k below 1.
    fn filtered(&self, k: usize) -> f32
        requires { k ≤ 65536 }
        ensures { result ≡ filtered self.now.table.now self.now.p self.now.recording.now k }
    {
        if k == 0 {
            return 0.0;
        }
        let back = 8 * self.p.samples();
        let table = self.table;
        let recording = self.recording;
        let mut sum: f32 = 0.0;
        // By the tap's number: `enumerate` over the table took a fifth longer.
        for tap in 0..table.len() {
            let sample = sample_no(recording, numbers::saturating_sub(k + tap, back));
            sum += table[tap] * sample;
        }
        sum
    }

    // F(k - p * symbols): the one product of p and a variable.
    pub(crate) fn symbols_before(&self, k: usize, symbols: usize) -> f32
        requires { (k ≤ 65536) × (symbols < 192) }
        ensures { result ≡ from_whole self.now.table.now self.now.p self.now.recording.now k (self.now.p * symbols) }
    {
        let ago = self.p.samples() * symbols;
        self.filtered(numbers::saturating_sub(k, ago))
    }

    // F(k-70), F(k-60), .. F(k).
    pub(crate) fn eight_values(&self, k: usize) -> [f32; 8]
        requires { k ≤ 65536 }
        ensures { result ≡ firsts (eight self.now.p (from_whole self.now.table.now self.now.p self.now.recording.now k)) 8 }
    {
        let mut values = [0.0f32; 8];
        for (i, value) in values.iter_mut().enumerate() {
            *value = self.symbols_before(k, 7 - i);
        }
        values
    }
}
