// The slow engine over a recording of 48,000 or 24,000 samples a second: every offer is accepted. The checksum takes in each offer's sample number and symbols.
use crate::sums;

// More offers than a recording of 65,536 samples has.
const OFFERS: usize = 81;

fn with_offers(count: usize, numbers: [u64; 405], symbols: [f32; 15_552]) -> u64 {
    let mut sum: u64 = 0;
    for offer in 0..count.min(OFFERS) {
        let window = 192 * offer;
        sum = sums::with_floats(
            sums::with(sum, numbers[5 * offer + 1]),
            &symbols[window..window + 192],
        );
    }
    sum
}

pub(crate) fn of_recording(rate: u32, samples: &[i16]) -> u64 {
    let replies = [true; 80];
    let mut numbers = [0u64; 405];
    let mut symbols = [0.0f32; 15_552];
    let listing = plain::list_offers(rate, samples, &replies, &mut numbers, &mut symbols);
    match listing {
        Err(why) => why.number() as u64,
        Ok(count) => with_offers(count, numbers, symbols),
    }
}
