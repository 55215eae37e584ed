// Checksums: what a job comes to, so that none of it is left out, and so that the Rust's can be held against it. Each value taken in counts by its place.

// One value more. What is kept of the sum is so small that its product fits.
pub(crate) fn with(sum: u64, value: u64) -> u64 {
    let kept = sum % 0x100_0000_0000_0000;
    (251 * kept).wrapping_add(value)
}

// By its bit pattern. A not-a-number has none: one of its own stands for it.
pub(crate) fn with_float(sum: u64, x: f32) -> u64 {
    if x != x {
        return with(sum, 0x7fc0_0000);
    }
    with(sum, f32::to_bits(x) as u64)
}

pub(crate) fn with_floats(sum: u64, values: &[f32]) -> u64 {
    let mut longer = sum;
    for value in values {
        longer = with_float(longer, *value);
    }
    longer
}

fn with_byte(sum: u64, byte: u8) -> u64 {
    with(sum, byte as u64)
}

// By its two bytes, the low one first.
fn with_sample(sum: u64, sample: i16) -> u64 {
    let pair = house::bytes_of_i16(sample);
    with_byte(with_byte(sum, pair[0]), pair[1])
}

pub(crate) fn with_samples(sum: u64, samples: &[i16]) -> u64 {
    let mut longer = sum;
    for sample in samples {
        longer = with_sample(longer, *sample);
    }
    longer
}
