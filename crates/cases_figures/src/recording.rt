// A recording as the list has it: stretches of zeros by their length, and samples by the four digits of their bits.
ghost use Rattle.std.specs.Prelude.{◌≡◌, length};

// Room for the longest recording. Only its length is told, which lending it as a slice needs.
pub(crate) fn room() -> [i16; 20_000]
    ensures { 20000 ≡ length result }
{
    [0; 20_000]
}

// The first samples, or all where they are fewer.
pub(crate) fn front(samples: &[i16], count: usize) -> &[i16] {
    &samples[..count.min(samples.len())]
}

// The sample that a pattern of 16 bits is, in two's complement.
fn of_pattern(pattern: u64) -> i16 {
    ((pattern % 65536) as u16).cast_signed()
}

// `cases_programs` has the same of bytes: one of both in `cases_text` would need a promise longer than itself.
fn put(room: &mut [i16], at: usize, sample: i16) -> usize {
    if at < room.len() {
        room[at] = sample;
        at + 1
    } else {
        at
    }
}

pub(crate) fn append(room: &mut [i16], recorded: usize, digits: &[u8]) -> usize {
    let mut end = recorded;
    for four in digits.chunks_exact(4) {
        end = put(room, end, of_pattern(cases_text::hexadecimal(four)));
    }
    end
}

pub(crate) fn append_zeros(room: &mut [i16], recorded: usize, count: u64) -> usize {
    let mut end = recorded;
    for _ in 0..count {
        end = put(room, end, 0);
    }
    end
}
