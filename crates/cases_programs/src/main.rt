// Replays the lists `programs` and `offsets`: does with their texts and recordings what send and receive do between their reads and their writes, and writes each line again with what came of it.
#![tactic(auto)]

mod pieces;
mod received;
mod sent;

ghost use Rattle.std.specs.Prelude.{◌≡◌, length};

use cases_text::Lines;
use std::io::{self, BufWriter, Write};

fn decimal(line: &[u8], k: usize) -> usize {
    cases_text::decimal(cases_text::word(line, k)) as usize
}

// Room for a recording. Only its length is told, which lending it as a slice needs.
fn room() -> [u8; 65_536]
    ensures { 65536 ≡ length result }
{
    [0; 65_536]
}

// A sample of zero is two bytes of zero.
fn silence(recording: &mut [u8], samples: usize) -> usize {
    let zeros = room();
    let half = pieces::put(recording, 0, &zeros, samples);
    pieces::put(recording, half, &zeros, samples)
}

fn append(recording: &mut [u8], recorded: usize, digits: &[u8]) -> usize {
    let bytes = pieces::bytes_of(digits);
    pieces::put(recording, recorded, &bytes, digits.len() / 2)
}

// What comes back is how many bytes of the recording count after the line.
// `was` tells what the Rust found with nothing amended: it is only written again.
fn answer_line(
    out: &mut impl Write,
    line: &[u8],
    recording: &mut [u8],
    recorded: usize,
) -> io::Result<usize> {
    out.write_all(line)?;
    let name = cases_text::word(line, 0);
    if name == b"send".as_slice() {
        return sent::send(out, cases_text::word(line, 2), recording);
    }
    cases_text::end_line(out)?;
    match name {
        b"zeros" => Ok(silence(recording, decimal(line, 1))),
        b"append" => Ok(append(recording, recorded, cases_text::word(line, 1))),
        b"offset" => {
            pieces::offset(recording, recorded, decimal(line, 1));
            Ok(recorded)
        }
        b"was" => Ok(recorded),
        _ => {
            let size = decimal(line, 1);
            let room = decimal(line, 2);
            received::receive(out, pieces::front(recording, recorded), size, room)?;
            Ok(recorded)
        }
    }
}

// What a line leaves goes to the next. A loop in `cases_text` that is handed both as a closure and a value would be no plainer.
fn replay(out: &mut impl Write, text: &[u8]) -> io::Result<()> {
    let mut recording = room();
    let mut recorded: usize = 0;
    for line in Lines::of(text) {
        recorded = answer_line(out, line, &mut recording, recorded)?;
    }
    Ok(())
}

// A crate has a `main` of its own.
fn main(rt: HostRuntime) -> io::Result<()> {
    let mut out = BufWriter::new(rt.alloc(), io::writer(&rt))?;
    let text = cases_text::read_text(&rt, rt.alloc(), 65_536)?;
    replay(&mut out, &text)?;
    out.flush()
}
