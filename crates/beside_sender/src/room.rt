// How the room of a read goes out: piece by piece.
ghost use Rattle.std.specs.Prelude.{◌≤◌, length};

use std::io::{self, Write};

fn put_some(out: &mut impl Write, samples: &[i16]) -> io::Result<()>
    requires { length samples.now ≤ 2000 }
{
    let mut bytes = [0u8; 4000];
    let end = 2 * samples.len();
    wire::put_samples(&mut bytes, samples);
    out.write_all(&bytes[0..end])
}

pub(crate) fn put(out: &mut impl Write, samples: &[i16]) -> io::Result<()> {
    for piece in samples.chunks(2000) {
        put_some(out, piece)?;
    }
    Ok(())
}
