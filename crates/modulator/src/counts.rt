// The numbers of a rate, by p, the samples in a symbol. A TxDelay counts steps, the card counts samples: the one conversion between them, and the difference of two counts of samples.
ghost use Rattle.std.specs.Prelude.{◌≡◌, ◌-◌, ◌*◌};
ghost use Rattle.shaping.specs.Rate.{store_places_lem, delay_step_lem, padding_limit_lem, end_limit_lem, wish_room_lem};

use super::{DelaySteps, SampleCount};
use shaping::PerSymbol;

// The samples of the longest frame.
pub(crate) fn store_places(p: PerSymbol) -> usize
    ensures { result ≡ store_places_lem p }
{
    400 * p.samples()
}

// What a step of ten milliseconds is.
fn delay_step(p: PerSymbol) -> usize
    ensures { result ≡ delay_step_lem p }
{
    48 * p.samples()
}

// The most that a TxDelay counts.
pub(crate) fn padding_limit(p: PerSymbol) -> SampleCount
    ensures { result.0 ≡ padding_limit_lem p }
{
    DelaySteps(255).in_samples(p)
}

// The largest number that an end is reported with.
pub(crate) fn end_limit(p: PerSymbol) -> usize
    ensures { result ≡ end_limit_lem p }
{
    33_554_432 + store_places(p) + padding_limit(p).0
}

// The room in the card's buffer that a wish needs.
pub(crate) fn wish_room(p: PerSymbol) -> usize
    ensures { result ≡ wish_room_lem p }
{
    200 * p.samples()
}

impl DelaySteps {
    pub(crate) fn in_samples(self, p: PerSymbol) -> SampleCount
        ensures { result.0 ≡ delay_step_lem p * self.0 }
    {
        SampleCount(delay_step(p) * (self.0 as usize))
    }
}

impl SampleCount {
    // Never below 0.
    pub(crate) fn saturating_sub(self, other: SampleCount) -> SampleCount
        ensures { result.0 ≡ self.0 - other.0 }
    {
        SampleCount(numbers::saturating_sub(self.0, other.0))
    }
}
