// Bytes in pairs: a read may end between the two bytes of a sample.
ghost use Rattle.std.specs.Prelude.{◌*◌, ◌+◌, ◌≤◌, length};
ghost use Rattle.receiving.specs.Hear.{most_samples};
ghost use Rattle.receiving.specs.Parts.{PairsWhole, PairsUp, ConsumesPart};

// How many samples there are, and the byte that is left over.
#[derive(Clone, Copy)]
pub(crate) struct Paired {
    pub count: usize,
    pub odd: Option<u8>,
}

// Whole samples from the first byte on.
fn pair_whole(bytes: &[u8], samples: &mut [i16]) -> Paired
    requires { length bytes.now ≤ 2 * length samples.old + 1 }
    ensures { PairsWhole bytes.now samples.old result samples.new }
{
    let (pairs, rest) = bytes.as_chunks::<2>();
    for (i, pair) in pairs.iter().enumerate() {
        samples[i] = house::i16_of_bytes(pair[0], pair[1]);
    }
    let count = pairs.len();
    match rest.first() {
        Some(last) => Paired {
            count,
            odd: Some(*last),
        },
        None => Paired { count, odd: None },
    }
}

// A byte that waits makes a sample with the first byte.
pub(crate) fn pair_up(odd: Option<u8>, bytes: &[u8], samples: &mut [i16]) -> Paired
    requires { length bytes.now ≤ 2 * length samples.old }
    ensures { PairsUp odd bytes.now samples.old result samples.new }
{
    match odd {
        None => pair_whole(bytes, samples),
        Some(low) => {
            if bytes.len() == 0 {
                return Paired { count: 0, odd };
            }
            let sample = house::i16_of_bytes(low, bytes[0]);
            samples[0] = sample;
            let rest = pair_whole(&bytes[1..], &mut samples[1..]);
            let count = rest.count + 1;
            let left_over = rest.odd;
            Paired {
                count,
                odd: left_over,
            }
        }
    }
}

// The bytes of some of the samples, but for the one that waited, and the byte that is then held.
#[derive(Clone, Copy)]
pub(crate) struct Part {
    pub consumed: usize,
    pub odd: Option<u8>,
}

pub(crate) fn measure_part(odd: Option<u8>, fed: usize) -> Part
    requires { fed ≤ most_samples }
    ensures { ConsumesPart odd fed result }
{
    if fed == 0 {
        return Part { consumed: 0, odd };
    }
    let both = 2 * fed;
    let consumed = if odd.is_some() { both - 1 } else { both };
    Part {
        consumed,
        odd: None,
    }
}
