// The receiver over a recording of 48,000 or 24,000 samples a second: every offer is accepted. The checksum takes in each sample's filtered value; each offer's sample number and symbols; and at the end the count and the carrier timer.
ghost use Rattle.std.specs.Prelude.{◌<◌, ◌≤◌, length};

use crate::sums;
use demodulator::{Control, Offer, Reply, SoftDemodulator};
use protocol::Refusal;

// The filtered values that the ring holds.
fn ring_places(rate: u32) -> usize
    ensures { (1 ≤ result) × (result ≤ 1920) }
{
    if rate == 24_000 { 960 } else { 1920 }
}

// The sample number of an offer, and 0 where there is none.
pub(crate) fn offered_at(answer: Result<Option<Offer>, Refusal>) -> u64 {
    match answer {
        Ok(Some(offer)) => offer.sample,
        _ => 0,
    }
}

fn with_control(sum: u64, control: Control) -> u64 {
    let timer = control.dcd;
    sums::with(sums::with(sum, control.sample), timer.unwrap_or(0))
}

// A cursor past the ring, which no run has, is read as its first place.
fn place_of(places: usize, cursor: usize) -> usize
    requires { 1 ≤ places }
    ensures { result < places }
{
    if cursor < places { cursor } else { 0 }
}

fn place_back(places: usize, at: usize, back: usize) -> usize
    requires { (places ≤ 1920) × (at < places) × (1 ≤ back) × (back ≤ places) }
    ensures { result < places }
{
    if back <= at {
        at - back
    } else {
        places + at - back
    }
}

// The last `count` values of a ring of so many places, in the order in which they came.
fn with_newest(sum: u64, ring: &[f32], places: usize, cursor: usize, count: usize) -> u64
    requires { (1 ≤ places) × (places ≤ 1920) × (1920 ≤ length ring.now) × (count ≤ places) }
{
    let at = place_of(places, cursor);
    let mut longer = sum;
    for i in 0..count {
        let place = place_back(places, at, count - i);
        longer = sums::with_float(longer, ring[place]);
    }
    longer
}

// A call for each sample.
pub(crate) fn by_sample(rate: u32, samples: &[i16]) -> u64 {
    let places = ring_places(rate);
    let begun = SoftDemodulator::new(rate);
    let mut receiver = begun.demodulator;
    let mut room = [0.0f32; 192];
    let mut sum: u64 = 0;
    for sample in samples {
        let after = receiver.demod(*sample, &mut room);
        receiver = after.demodulator;
        sum = with_newest(sum, &receiver.rx_win, places, receiver.rx_cursor, 1);
        let answer = after.answer;
        let at = offered_at(answer);
        if 0 < at {
            sum = sums::with_floats(sums::with(sum, at), &room);
            let settled = receiver.reply(Reply::Accepted);
            receiver = settled.demodulator;
        }
    }
    with_control(sum, receiver.control)
}

// A call for each stretch, which ends at an offer or after as many samples as the ring has places.
pub(crate) fn by_stretch(rate: u32, samples: &[i16]) -> u64 {
    let places = ring_places(rate);
    let begun = SoftDemodulator::new(rate);
    let mut receiver = begun.demodulator;
    let mut room = [0.0f32; 192];
    let mut sum: u64 = 0;
    let mut rest = samples;
    while !rest.is_empty() {
        let stretch = &rest[..places.min(rest.len())];
        let after = receiver.feed(stretch, &mut room);
        receiver = after.demodulator;
        // Nothing here is refused, so neither comes about; the tests bound the loop.
        let fed = after.fed;
        if fed == 0 {
            return sum;
        }
        if stretch.len() < fed {
            return sum;
        }
        sum = with_newest(sum, &receiver.rx_win, places, receiver.rx_cursor, fed);
        let answer = after.answer;
        let at = offered_at(answer);
        if 0 < at {
            sum = sums::with_floats(sums::with(sum, at), &room);
            let settled = receiver.reply(Reply::Accepted);
            receiver = settled.demodulator;
        }
        rest = &rest[fed..];
    }
    with_control(sum, receiver.control)
}
