// What is in the bytes.
ghost use Rattle.std.specs.Prelude.{◌≡◌, length};
ghost use Rattle.std.specs.Float.{binary32};
ghost use Rattle.std.specs.Float.Ieee.{of_bits};
ghost use Rattle.house.specs.Samples.{number_of};
ghost use Rattle.wire.specs.Bytes.{low_first, part, NumbersSays, FloatsSays, SamplesSays};

// The bytes from a place on, up to a count.
fn piece(from: &[u8], at: usize, count: usize) -> &[u8]
    ensures { result.now ≡ part count from.now at }
{
    let rest = &from[at.min(from.len())..];
    &rest[..count.min(rest.len())]
}

// So many bytes from a place on, with zeros where the slice has none.
fn read<const N: usize>(from: &[u8], at: usize) -> [u8; N]
    ensures { low_first result ≡ low_first (part N from.now at) }
{
    let there = piece(from, at, N);
    let mut bytes = [0u8; N];
    bytes[..there.len()].copy_from_slice(there);
    bytes
}

// Every place of the room takes the number that stands for it.
pub fn numbers(from: &[u8], to: &mut [u64])
    ensures { NumbersSays from.now to.old to.new }
{
    for (i, place) in to.iter_mut().enumerate() {
        *place = u64::from_le_bytes(read(from, 8 * i));
    }
}

fn float(from: &[u8], at: usize) -> f32
    ensures { result ≡ of_bits binary32 (low_first (part 4 from.now at)) }
{
    numbers::of_pattern(u32::from_le_bytes(read(from, at)))
}

// By their bit patterns. Every pattern that is no number's gives the one not-a-number.
pub fn floats(from: &[u8], to: &mut [f32])
    ensures { FloatsSays from.now to.old to.new }
{
    for (i, place) in to.iter_mut().enumerate() {
        *place = float(from, 4 * i);
    }
}

fn sample(from: &[u8], at: usize) -> i16
    ensures { result ≡ number_of (low_first (part 2 from.now at)) }
{
    let [low, high] = read::<2>(from, at);
    house::i16_of_bytes(low, high)
}

// In two's complement.
pub fn samples(from: &[u8], to: &mut [i16])
    ensures { SamplesSays from.now to.old to.new }
{
    for (i, place) in to.iter_mut().enumerate() {
        *place = sample(from, 2 * i);
    }
}
