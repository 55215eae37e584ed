// Pieces of texts and of recordings.
ghost use Rattle.std.specs.Prelude.{◌<◌, ◌≤◌};

// The first bytes, or all where they are fewer.
pub(crate) fn front(bytes: &[u8], length: usize) -> &[u8] {
    &bytes[..length.min(bytes.len())]
}

// How many of the bytes that are left a read of a size takes. One of no bytes takes a byte, so that each read comes nearer to the end.
pub(crate) fn read_size(size: usize, left: usize) -> usize
    requires { 0 < left }
    ensures { (0 < result) × (result ≤ left) }
{
    size.max(1).min(left)
}

// Two digits are a byte, and 0 stands past their end. Of a text no more than a line comes at once.
pub(crate) fn bytes_of(digits: &[u8]) -> [u8; 97] {
    let mut bytes = [0u8; 97];
    for (byte, pair) in bytes.iter_mut().zip(digits.chunks_exact(2)) {
        *byte = (cases_text::hexadecimal(pair) % 256) as u8;
    }
    bytes
}

// `cases_figures` has the same of samples: one of both in `cases_text` would need a promise longer than itself.
fn put_byte(recording: &mut [u8], at: usize, byte: u8) -> usize {
    if at < recording.len() {
        recording[at] = byte;
        at + 1
    } else {
        at
    }
}

// The first `count` of the bytes go into the recording, as far as there is room, and the place after them comes back.
pub(crate) fn put(recording: &mut [u8], at: usize, bytes: &[u8], count: usize) -> usize {
    let mut end = at;
    for byte in front(bytes, count) {
        end = put_byte(recording, end, *byte);
    }
    end
}

// A sample goes up, in two's complement.
fn raised(low: u8, high: u8, by: usize) -> [u8; 2] {
    u16::from_le_bytes([low, high])
        .wrapping_add((by % 65536) as u16)
        .to_le_bytes()
}

pub(crate) fn offset(recording: &mut [u8], recorded: usize, by: usize) {
    let end = recorded.min(recording.len());
    for pair in recording[..end].chunks_exact_mut(2) {
        let bytes = raised(pair[0], pair[1], by);
        pair.copy_from_slice(&bytes);
    }
}
