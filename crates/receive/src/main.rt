// Reads i16 samples from standard input, low byte first, and writes a line for each window that it accepts, by the library receiving.
// Where a read or a write fails, or a sample is refused, it stops and says so on standard error: what it wrote begins the output.
#![tactic(auto)]

use house::{Program, Text};
use receiving::Receiving;
use std::io::{Read, Write};

// The lines of one read's samples, or what is said if they are the last. `lines` has room for a line of each, so bytes are left over only where
// a sample is refused.
fn hear_some(
    out: &mut impl Write,
    receiving: Receiving,
    bytes: &[u8],
    lines: &mut [u8],
) -> Result<Receiving, Text> {
    let after = receiving.hear(bytes, lines);
    let length = after.written;
    let consumed = after.consumed;
    let written = out.write_all(&lines[..length]).is_ok();
    let admitted = consumed == bytes.len();
    if written & admitted {
        return Ok(after.receiving);
    }
    Err(house::outcome_text(Program::Receive, true, written, admitted))
}

// A read of no bytes is the end of the input.
fn read_some(
    input: &mut impl Read,
    out: &mut impl Write,
    receiving: Receiving,
    lines: &mut [u8],
) -> Result<Receiving, Text> {
    let mut bytes = [0u8; 16384];
    match input.read(&mut bytes) {
        Err(_) => Err(house::outcome_text(Program::Receive, false, true, true)),
        Ok(0) => Err(house::outcome_text(Program::Receive, true, true, true)),
        Ok(count) => hear_some(out, receiving, &bytes[..count], lines),
    }
}

// A proved loop has to end, and nothing says that the input does: the turns are counted, to a number that no run comes to.
fn main(rt: HostRuntime) {
    let mut input = rt.stdin();
    let mut out = rt.stdout();
    let mut receiving = Receiving::new();
    let mut lines = [0u8; 794624];
    for _ in 0..u64::MAX {
        match read_some(&mut input, &mut out, receiving, &mut lines) {
            Ok(next) => receiving = next,
            Err(words) => {
                telling::tell(&mut rt.stderr(), words);
                break;
            }
        }
    }
}
