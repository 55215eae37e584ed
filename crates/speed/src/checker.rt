// The checker of a transmitter box over a text of one line many times. Whether it says yes is the checksum.
ghost use Rattle.std.specs.Prelude.{◌≡◌, length};

use supplier::Checked;

// Room for the lines of the most samples that a request has. Only its length is told, which lending it as a slice needs.
pub(crate) fn text_room() -> [u8; 9_700]
    ensures { 9700 ≡ length result }
{
    [0; 9_700]
}

// The line again and again.
pub(crate) fn put_lines(text: &mut [u8], line: [u8; 97]) {
    for (i, place) in text.iter_mut().enumerate() {
        *place = line[i % 97];
    }
}

// As many lines as the samples have frames, besides a preamble and an end.
fn text_size(samples: usize) -> usize {
    if samples < 4640 {
        0
    } else {
        (samples - 4640) / 1920 * 97
    }
}

pub(crate) fn is_sent(text: &[u8], samples: &[i16]) -> u64 {
    let size = text_size(samples.len());
    if text.len() < size {
        return 0;
    }
    let answer = supplier::check(0, &text[0..size], samples);
    matches!(answer, Ok(Checked::Yes)) as u64
}
