// Pieces of texts, of recordings and of stretches.
// The first bytes or samples, or all where they are fewer.
pub(crate) fn front<T>(all: &[T], length: usize) -> &[T] {
    &all[..length.min(all.len())]
}

// Two digits are a byte. The text's length comes back.
pub(crate) fn put_bytes(text: &mut [u8], digits: &[u8]) -> usize {
    for (byte, pair) in text.iter_mut().zip(digits.chunks_exact(2)) {
        *byte = (cases_text::hexadecimal(pair) % 256) as u8;
    }
    text.len().min(digits.len() / 2)
}

// Four digits are a sample, which goes into the recording as far as there is room. The place after them comes back.
pub(crate) fn put_samples(recording: &mut [i16], at: usize, digits: &[u8]) -> usize {
    let begin = at.min(recording.len());
    let room = &mut recording[begin..];
    for (sample, four) in room.iter_mut().zip(digits.chunks_exact(4)) {
        *sample = ((cases_text::hexadecimal(four) % 65536) as u16).cast_signed();
    }
    begin + room.len().min(digits.len() / 4)
}

// The sample at a place of the stretch: zeros, the recording, and zeros again.
fn sample_at(recording: &[i16], zeros: usize, place: usize) -> i16 {
    if place < zeros {
        return 0;
    }
    recording.get(place - zeros).copied().unwrap_or(0)
}

// So many samples of the stretch, as far as there is room. How many comes back.
pub(crate) fn lay(stretch: &mut [i16], recording: &[i16], zeros: usize, count: usize) -> usize {
    let most = count.min(stretch.len());
    for (place, sample) in stretch[..most].iter_mut().enumerate() {
        *sample = sample_at(recording, zeros, place);
    }
    most
}

// The sample with a number, from 1, goes up by so much, in two's complement; 0 is none's.
pub(crate) fn raise(stretch: &mut [i16], number: usize, by: usize) {
    if number == 0 {
        return;
    }
    let place = number - 1;
    if place < stretch.len() {
        let pattern = stretch[place].cast_unsigned();
        stretch[place] = pattern.wrapping_add((by % 65536) as u16).cast_signed();
    }
}
