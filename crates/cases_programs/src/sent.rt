// A text, in hexadecimal, through the library of send.
ghost use Rattle.std.specs.Prelude.{◌<◌};

use crate::pieces;
use sending::{AfterPart, Sending};
use std::io::{self, Write};

// Reads come in pieces of at most so many bytes: no line comes in one.
const PIECE: usize = 40;

// The part that came last, and how long the recording is by now.
#[derive(Clone, Copy)]
struct Turn {
    part: AfterPart,
    length: usize,
}

fn put_part(part: AfterPart, recording: &mut [u8], length: usize) -> Turn {
    let bytes = part.bytes;
    let longer = pieces::put(recording, length, &bytes, part.length);
    Turn {
        part,
        length: longer,
    }
}

fn take_some(turn: Turn, digits: &[u8], recording: &mut [u8]) -> Turn {
    let sending = turn.part.sending;
    let part = sending.turn(pieces::bytes_of(digits), digits.len() / 2);
    put_part(part, recording, turn.length)
}

// Two digits are a byte.
fn piece(part: AfterPart) -> usize {
    let sending = part.sending;
    2 * sending.lacks().min(PIECE)
}

fn take_all(digits: &[u8], recording: &mut [u8]) -> Turn {
    let mut turn = put_part(Sending::open(), recording, 0);
    let mut rest = digits;
    while !rest.is_empty() && !turn.part.last {
        let size = pieces::read_size(piece(turn.part), rest.len());
        turn = take_some(turn, &rest[..size], recording);
        rest = &rest[size..];
    }
    turn
}

// A read that gives nothing is the end of the text.
fn end(turn: Turn, recording: &mut [u8]) -> Turn {
    if turn.part.last {
        turn
    } else {
        take_some(turn, b"", recording)
    }
}

// Adler-32 so far: the sum of the bytes and 1, and the sum of those sums.
#[derive(Clone, Copy)]
struct Sums {
    bytes: u64,
    sums: u64,
}

fn added(so_far: Sums, byte: u8) -> Sums
    ensures { (result.bytes < 65521) × (result.sums < 65521) }
{
    let bytes = so_far.bytes.wrapping_add(byte as u64) % 65521;
    Sums {
        bytes,
        sums: so_far.sums.wrapping_add(bytes) % 65521,
    }
}

// A line tells a whole recording by it.
fn adler(recording: &[u8]) -> u64 {
    let mut so_far = Sums { bytes: 1, sums: 0 };
    for byte in recording {
        so_far = added(so_far, *byte);
    }
    65536 * so_far.sums + so_far.bytes
}

fn put_words(out: &mut impl Write, part: AfterPart) -> io::Result<()> {
    let text = part.last_words(true, true);
    if text.length > 0 {
        out.write_all(b" ")?;
        let bytes = text.bytes;
        cases_text::put_front(out, &bytes, text.length)
    } else {
        cases_text::end_line(out)
    }
}

fn put_answer(out: &mut impl Write, last: Turn, recording: &[u8]) -> io::Result<()> {
    out.write_all(b" =")?;
    cases_text::put_count(out, (last.length / 2) as u64)?;
    cases_text::put_count(out, adler(pieces::front(recording, last.length)))?;
    put_words(out, last.part)
}

// What comes back is the recording's length.
pub(crate) fn send(out: &mut impl Write, digits: &[u8], recording: &mut [u8]) -> io::Result<usize> {
    let taken = take_all(digits, recording);
    let last = end(taken, recording);
    put_answer(out, last, recording)?;
    Ok(last.length)
}
