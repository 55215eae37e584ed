// The correlator: eight values against a burst's signs.
ghost use Rattle.std.specs.Prelude.{◌≡◌, map, length};
ghost use Rattle.decode.specs.Correlator.{zero_unsigned, distance_of, summed, distances, InRangeSays, SyncBurstCorrelationSays};
ghost use Rattle.decode.specs.Parts.{values_of, eight_in_range_lem, extremes_of, UnsignZerosSays, SpreadOfSays, CompareSays};

use crate::{Correlation, Spread};
use protocol::{Refusal, SyncBurst};

// No burst matches below it.
pub const SYNC_MIN_GAIN: f32 = 16.0;

const SYNC_BIT_THRESHOLD: f32 = 0.3;

// What no match reports as its diff: the largest f32.
const NO_MATCH: f32 = 340282350000000000000000000000000000000.0;

// A value farther from 0.0 is refused.
const VALUE_LIMIT: f32 = 1000000.0;

#[derive(Clone, Copy)]
struct Span {
    high: f32,
    low: f32,
}

// Whether the correlator takes a value: not-a-number is never within.
pub fn in_range(value: f32) -> bool
    ensures { InRangeSays value result }
{
    value >= -VALUE_LIMIT && value <= VALUE_LIMIT
}

fn eight_in_range(samples: &[f32; 8]) -> bool
    ensures { result ≡ eight_in_range_lem samples.now }
{
    samples.iter().all(|sample| in_range(*sample))
}

// The eight values as the correlator reads them. Document 01 reads -0.0 as 0.0: adding 0.0 does that, and changes no other value.
pub fn unsign_zeros(values: [f32; 8]) -> [f32; 8]
    ensures { UnsignZerosSays values result }
{
    let mut unsigned = values;
    for value in unsigned.iter_mut() {
        *value += 0.0;
    }
    unsigned
}

// The Rust begins with the ends of f32's range, and this with the first value: for values in range that is the same.
fn extremes(values: &[f32; 8]) -> Span
    ensures { result ≡ extremes_of (values_of values.now) }
{
    let mut high = values[0];
    let mut low = values[0];
    for value in &values[1..] {
        high = numbers::max(high, *value);
        low = numbers::min(low, *value);
    }
    Span { high, low }
}

// How far a value lies from the symbol that the burst has there.
#[tactic(auto, unfolding(crate::specs::Correlator::distance_of, crate::specs::Correlator::symbol_of))]
fn distance(gain: f32, shift: f32, target: i8, value: f32) -> f32
    ensures { result ≡ distance_of gain shift target value }
{
    numbers::abs((value - shift) / gain - (target as f32))
}

// The sum of the eight distances, unless one lies above the threshold: no later one is looked at then.
fn summed(target: [i8; 8], values: [f32; 8], gain: f32, shift: f32) -> f32
    ensures { result ≡ summed (distances target gain shift (values_of values)) }
{
    let mut diff: f32 = 0.0;
    for (sign, value) in target.iter().zip(&values) {
        let sym_diff = distance(gain, shift, *sign, *value);
        if sym_diff > SYNC_BIT_THRESHOLD {
            diff = NO_MATCH;
            break;
        }
        diff = diff + sym_diff;
    }
    diff
}

// The gain and the shift of eight values with their zeros unsigned: the same for every burst.
#[tactic(auto, unfolding(crate::specs::Correlator::gain_of, crate::specs::Correlator::shift_of))]
pub fn spread_of(values: [f32; 8]) -> Spread
    ensures { SpreadOfSays values result }
{
    let e = extremes(&values);
    Spread {
        gain: (e.high - e.low) / 2.0,
        shift: (e.high + e.low) / 2.0,
    }
}

// Eight values with their zeros unsigned, against one burst, once their gain and shift are known.
pub fn compare(burst: SyncBurst, values: [f32; 8], spread: Spread) -> Correlation
    ensures { CompareSays burst values spread result }
{
    let gain = spread.gain;
    let shift = spread.shift;
    if gain < SYNC_MIN_GAIN {
        return Correlation {
            diff: NO_MATCH,
            gain,
            shift,
        };
    }
    let target = burst.target();
    let diff = summed(target, values, gain, shift);
    Correlation { diff, gain, shift }
}

// The whole correlator: eight values of any origin.
pub fn sync_burst_correlation(burst: SyncBurst, samples: &[f32]) -> Result<Correlation, Refusal>
    ensures { SyncBurstCorrelationSays burst samples.now result }
{
    let Ok(samples) = <[f32; 8]>::try_from(samples) else {
        return Err(Refusal::WrongCount);
    };
    if !eight_in_range(&samples) {
        return Err(Refusal::ValueOutside);
    }
    let values = unsign_zeros(samples);
    let answer = compare(burst, values, spread_of(values));
    Ok(answer)
}
