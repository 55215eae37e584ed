// Eight values against the signs of a kind's burst, by document 01's sentence "Correlate at k".
ghost use Rattle.std.specs.Prelude.{◌≡◌};
ghost use Rattle.protocol.specs.declared.SyncBurst.TheVariants.{Frame};
ghost use Rattle.protocol.specs.Bursts.{signs_of};
ghost use Rattle.decode.specs.Correlator.{correlation, summed, distances};
ghost use Rattle.decode.specs.Parts.{values_of};
ghost use Rattle.plain.specs.Values.{unsigned, range_of};

use decode::Correlation;
use protocol::{Kind, SyncBurst};

// No burst matches below it.
const LEAST_GAIN: f32 = 16.0;

// A distance above it is no match.
const FARTHEST: f32 = 0.3;

// What no match reports as its diff: the largest f32.
const NO_MATCH: f32 = 340282350000000000000000000000000000000.0;

#[derive(Clone, Copy)]
pub(crate) struct Range {
    pub max: f32,
    pub min: f32,
}

// The largest and the smallest value. -0.0 is read as 0.0, which adding 0.0 makes of it.
fn range_of(values: [f32; 8]) -> Range
    ensures { result ≡ range_of (unsigned (values_of values)) }
{
    let mut max = values[0] + 0.0;
    let mut min = values[0] + 0.0;
    for value in &values[1..] {
        max = numbers::max(max, *value + 0.0);
        min = numbers::min(min, *value + 0.0);
    }
    Range { max, min }
}

// The sum of the eight distances. The comparison stops at the first that is too far.
fn diff_of(signs: [i8; 8], values: [f32; 8], gain: f32, shift: f32) -> f32
    ensures { result ≡ summed (distances signs gain shift (unsigned (values_of values))) }
{
    let mut diff: f32 = 0.0;
    for (value, sign) in values.iter().zip(signs.iter()) {
        let symbol = (*value + 0.0 - shift) / gain;
        let distance = numbers::abs(symbol - (*sign as f32));
        if distance > FARTHEST {
            return NO_MATCH;
        }
        diff += distance;
    }
    diff
}

// A kind's burst at eight values: diff, gain and shift.
pub(crate) fn correlate(kind: Kind, values: [f32; 8]) -> Correlation
    ensures { result ≡ correlation (Frame kind) (values_of values) }
{
    let range = range_of(values);
    let gain = (range.max - range.min) / 2.0;
    let shift = (range.max + range.min) / 2.0;
    if gain < LEAST_GAIN {
        return Correlation {
            diff: NO_MATCH,
            gain,
            shift,
        };
    }
    let burst = SyncBurst::Frame(kind);
    let signs = burst.target();
    let diff = diff_of(signs, values, gain, shift);
    Correlation { diff, gain, shift }
}
