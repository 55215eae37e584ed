// The samples that a line gives.
// The first samples, or all where they are fewer.
pub(crate) fn front(samples: &[i16], count: usize) -> &[i16] {
    &samples[..count.min(samples.len())]
}

// The sample that a pattern of 16 bits is, in two's complement.
fn of_pattern(pattern: u64) -> i16 {
    ((pattern % 65536) as u16).cast_signed()
}

// The samples of the digits, four for each, and 0 past their end. `cases_offers` has the same of another length: in `cases_text` it would need a promise of each sample, longer than itself.
pub(crate) fn samples_of(digits: &[u8]) -> [i16; 480] {
    let mut samples = [0i16; 480];
    for (sample, four) in samples.iter_mut().zip(digits.chunks_exact(4)) {
        *sample = of_pattern(cases_text::hexadecimal(four));
    }
    samples
}
