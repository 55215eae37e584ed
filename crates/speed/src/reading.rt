// A request's samples, two bytes each, the low one first.
ghost use Rattle.std.specs.Prelude.{◌≡◌, ◌*◌, ◌≤◌, length};

use std::io::Read;

// Room for the most that a request has. Only its length is told, which lending it as a slice needs.
pub(crate) fn sample_room() -> [i16; 192_000]
    ensures { 192000 ≡ length result }
{
    [0; 192_000]
}

// Room for their bytes.
fn byte_room() -> [u8; 384_000]
    ensures { 384000 ≡ length result }
{
    [0; 384_000]
}

fn put_samples(bytes: &[u8], samples: &mut [i16])
    requires { 2 * length samples.old ≤ length bytes.now }
{
    for (sample, pair) in samples.iter_mut().zip(bytes.chunks_exact(2)) {
        *sample = house::i16_of_bytes(pair[0], pair[1]);
    }
}

fn read_bytes(input: &mut impl Read, bytes: &mut [u8], samples: &mut [i16]) -> bool
    requires { 2 * length samples.old ≤ length bytes.old }
{
    if input.read_exact(bytes).is_err() {
        return false;
    }
    put_samples(bytes, samples);
    true
}

// As many samples as there is room for.
pub(crate) fn read_samples(input: &mut impl Read, samples: &mut [i16]) -> bool
    requires { length samples.old ≤ 192000 }
{
    let mut bytes = byte_room();
    let size = 2 * samples.len();
    read_bytes(input, &mut bytes[..size], samples)
}
