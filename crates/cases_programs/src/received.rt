// A recording, in reads of a size and with room for lines, through the library of receive.
ghost use Rattle.std.specs.Prelude.{◌≤◌, IfOk, length};

use crate::pieces;
use receiving::Receiving;
use std::io::{self, Write};

// What the last call consumed, and how many lines there are by now.
#[derive(Clone, Copy)]
struct Turn {
    receiving: Receiving,
    consumed: usize,
    found: u64,
}

// The lines are written as they come, and counted.
fn hear_into(out: &mut impl Write, turn: Turn, bytes: &[u8], lines: &mut [u8]) -> io::Result<Turn>
    ensures { IfOk result (λ t. t.consumed ≤ length bytes.now) }
{
    let receiving = turn.receiving;
    let after = receiving.hear(bytes, lines);
    let written = after.written;
    cases_text::put_front(out, lines, written)?;
    let next = after.receiving;
    Ok(Turn {
        receiving: next,
        consumed: after.consumed,
        found: turn.found.wrapping_add((written / 97) as u64),
    })
}

fn hear_some(
    out: &mut impl Write,
    turn: Turn,
    bytes: &[u8],
    lines: &mut [u8],
    room: usize,
) -> io::Result<Turn>
    ensures { IfOk result (λ t. t.consumed ≤ length bytes.now) }
{
    let places = room.min(lines.len());
    hear_into(out, turn, bytes, &mut lines[..places])
}

// What a call does not consume begins the next read. There are places for a line of each sample that a call looks at.
fn hear_all(out: &mut impl Write, recording: &[u8], size: usize, room: usize) -> io::Result<u64> {
    let mut turn = Turn {
        receiving: Receiving::new(),
        consumed: 0,
        found: 0,
    };
    let mut lines = [0u8; 794624];
    let mut rest = recording;
    while !rest.is_empty() {
        let read = &rest[..pieces::read_size(size, rest.len())];
        turn = hear_some(out, turn, read, &mut lines, room)?;
        let consumed = turn.consumed;
        if consumed == 0 {
            return Ok(turn.found);
        }
        rest = &rest[consumed..];
    }
    Ok(turn.found)
}

pub(crate) fn receive(
    out: &mut impl Write,
    recording: &[u8],
    size: usize,
    room: usize,
) -> io::Result<()> {
    let found = hear_all(out, recording, size, room)?;
    out.write_all(b"found")?;
    cases_text::put_count(out, found)?;
    cases_text::end_line(out)
}
