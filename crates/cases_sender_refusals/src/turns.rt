// Turns of the library `sending` on a line's record, with the beginning of document 01's whole case at hand. What is read are digits 1,
// with a line feed where the line names its place: no byte of them can be kept unseen.
use crate::answer;
use crate::same::same;
use modulator::SoftModulator;
use sending::{AfterPart, Sending};
use std::io::{self, Write};

// 55F7 and 92 digits 0, and a line feed.
fn whole_case() -> [u8; 97] {
    let mut line = [b'0'; 97];
    line[0] = b'5';
    line[1] = b'5';
    line[2] = b'F';
    line[3] = b'7';
    line[96] = b'\n';
    line
}

fn start(m: SoftModulator, parts: &[u8]) -> Sending {
    let have = cases_text::count_behind(parts, b"have", 50) as usize;
    Sending {
        modulator: m,
        line: whole_case(),
        have,
        number: 7,
    }
}

fn read_bytes(parts: &[u8]) -> [u8; 97] {
    let mut bytes = [b'1'; 97];
    let feed = cases_text::count_behind(parts, b"feed", 97) as usize;
    if feed < 97 {
        bytes[feed] = b'\n';
    }
    bytes
}

fn is_same(a: Sending, b: Sending) -> bool {
    same(a.modulator, b.modulator) && a.line == b.line && a.have == b.have && a.number == b.number
}

// Nothing is to be written or told, and no byte was taken.
fn is_silent(after: AfterPart) -> bool {
    after.bytes == [0u8; 5440] && after.length == 0 && after.taken == 0 && !after.bad && !after.last
}

fn put_label(out: &mut impl Write, label: usize) -> io::Result<()> {
    let list = b" taken| length| have| number| bad| last";
    out.write_all(cases_text::cell(list, label))
}

fn put_number(out: &mut impl Write, label: usize, n: u64) -> io::Result<()> {
    put_label(out, label)?;
    cases_text::put_count(out, n)
}

fn put_done(out: &mut impl Write, after: AfterPart) -> io::Result<()> {
    let sending = after.sending;
    put_number(out, 0, after.taken as u64)?;
    put_number(out, 1, after.length as u64)?;
    put_number(out, 2, sending.have as u64)?;
    put_number(out, 3, sending.number)?;
    if after.bad {
        put_label(out, 4)?;
    }
    if after.last {
        put_label(out, 5)?;
    }
    Ok(())
}

// What comes back is the sender's record.
pub(crate) fn turn(
    out: &mut impl Write,
    m: SoftModulator,
    parts: &[u8],
) -> io::Result<SoftModulator> {
    let before = start(m, parts);
    let n = cases_text::count_behind(parts, b"bytes", 0) as usize;
    let after = before.turn(read_bytes(parts), n);
    let answer = after.answer;
    let next = after.sending;
    let kept = is_same(before, next) & is_silent(after);
    answer::put(out, answer::of_done(answer, kept, answer::DONE), parts)?;
    if answer.is_ok() {
        put_done(out, after)?;
    }
    Ok(next.modulator)
}
