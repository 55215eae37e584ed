// What is laid in the bytes.
ghost use Rattle.std.specs.Prelude.{◌≡◌};
ghost use Rattle.std.specs.Float.{binary32};
ghost use Rattle.std.specs.Float.Ieee.{to_bits};
ghost use Rattle.std.proofs.lemmas.List.Edits.{sets};
ghost use Rattle.house.specs.Samples.{pattern_of};
ghost use Rattle.wire.specs.Bytes.{lows, PutNumbersSays, PutFloatsSays, PutSamplesSays};

// These bytes from a place on, as far as the slice has places for them.
fn lay(to: &mut [u8], at: usize, bytes: &[u8])
    ensures { to.new ≡ sets to.old at bytes.now }
{
    let start = at.min(to.len());
    let count = bytes.len().min(to.len() - start);
    to[start..start + count].copy_from_slice(&bytes[..count]);
}

fn lay_number(to: &mut [u8], at: usize, number: u64)
    ensures { to.new ≡ sets to.old at (lows 8 number) }
{
    lay(to, at, &number.to_le_bytes());
}

pub fn put_numbers(to: &mut [u8], from: &[u64])
    ensures { PutNumbersSays to.old from.now to.new }
{
    for (i, number) in from.iter().enumerate() {
        lay_number(to, 8 * i, *number);
    }
}

// `f32::to_bits` is not defined at what is not a number: its pattern is the one with the highest digit alone.
fn pattern(x: f32) -> u32
    ensures { result ≡ to_bits binary32 x }
{
    if x != x { 0x7fc0_0000 } else { f32::to_bits(x) }
}

fn lay_float(to: &mut [u8], at: usize, value: f32)
    ensures { to.new ≡ sets to.old at (lows 4 (to_bits binary32 value)) }
{
    lay(to, at, &pattern(value).to_le_bytes());
}

pub fn put_floats(to: &mut [u8], from: &[f32])
    ensures { PutFloatsSays to.old from.now to.new }
{
    for (i, value) in from.iter().enumerate() {
        lay_float(to, 4 * i, *value);
    }
}

fn lay_sample(to: &mut [u8], at: usize, sample: i16)
    ensures { to.new ≡ sets to.old at (lows 2 (pattern_of sample)) }
{
    lay(to, at, &house::bytes_of_i16(sample));
}

pub fn put_samples(to: &mut [u8], from: &[i16])
    ensures { PutSamplesSays to.old from.now to.new }
{
    for (i, sample) in from.iter().enumerate() {
        lay_sample(to, 2 * i, *sample);
    }
}
