// The recording in its room: the samples that a line adds to those before them. What does not fit is dropped.
ghost use Rattle.std.specs.Prelude.{◌≡◌, ◌≤◌, length};

// The sample that a pattern of 16 bits is, in two's complement.
fn of_pattern(pattern: u64) -> i16 {
    ((pattern % 65536) as u16).cast_signed()
}

// Four digits are a sample.
pub(crate) fn add_samples(digits: &[u8], samples: &mut [i16], count: usize) -> usize
    requires { count ≤ length samples.old }
    ensures { (result ≤ length samples.new) × (length samples.new ≡ length samples.old) }
{
    let mut next = count;
    for four in digits.chunks_exact(4) {
        if samples.len() <= next {
            return next;
        }
        samples[next] = of_pattern(cases_text::hexadecimal(four));
        next += 1;
    }
    next
}

pub(crate) fn add_zeros(zeros: u64, samples: &mut [i16], count: usize) -> usize
    requires { count ≤ length samples.old }
    ensures { (result ≤ length samples.new) × (length samples.new ≡ length samples.old) }
{
    let room = samples.len() - count;
    let next = count + (zeros as usize).min(room);
    samples[count..next].fill(0);
    next
}
