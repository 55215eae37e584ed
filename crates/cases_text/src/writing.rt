// Answers, each after a space.
ghost use Rattle.std.specs.Prelude.{◌≤◌, [], ◌∷◌, OnOk, length, take};
ghost use Rattle.std.specs.Fmt.{decimal, signed_decimal};
ghost use Rattle.std.specs.Io.KnownBytes.{Appends};
ghost use Rattle.cases_text.specs.Written.{float_text, float_texts};

use std::io::{self, Write};

pub fn end_line<W: Write>(out: &mut W) -> io::Result<()>
    ensures { OnOk result (Appends (W.contents out.old) (W.contents out.new) (10 ∷ [])) }
{
    out.write_all(b"\n")
}

pub fn put_count<W: Write>(out: &mut W, n: u64) -> io::Result<()>
    ensures { OnOk result (Appends (W.contents out.old) (W.contents out.new) (32 ∷ decimal n)) }
{
    write!(out, " {n}")
}

// The eight digits of the bit pattern, or `nan`, which has no pattern of its own.
pub fn put_float<W: Write>(out: &mut W, x: f32) -> io::Result<()>
    ensures { OnOk result (Appends (W.contents out.old) (W.contents out.new) (32 ∷ float_text x)) }
{
    if x != x {
        out.write_all(b" nan")
    } else {
        let pattern = f32::to_bits(x);
        write!(out, " {pattern:08x}")
    }
}

pub fn put_floats<W: Write>(out: &mut W, xs: &[f32]) -> io::Result<()>
    ensures { OnOk result (Appends (W.contents out.old) (W.contents out.new) (float_texts xs.now)) }
{
    for x in xs {
        put_float(out, *x)?;
    }
    Ok(())
}

pub fn put_signed<W: Write>(out: &mut W, z: i16) -> io::Result<()>
    ensures { OnOk result (Appends (W.contents out.old) (W.contents out.new) (32 ∷ signed_decimal z)) }
{
    write!(out, " {z}")
}

// The first `count` of the bytes; none where there are fewer.
pub fn put_front<W: Write>(out: &mut W, bytes: &[u8], count: usize) -> io::Result<()>
    ensures { OnOk result (count ≤ length bytes.now → Appends (W.contents out.old) (W.contents out.new) (take count bytes.now)) }
{
    if count <= bytes.len() {
        out.write_all(&bytes[..count])
    } else {
        Ok(())
    }
}
