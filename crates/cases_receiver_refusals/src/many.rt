// Calls that give many samples, or bytes, on a made-up record.
ghost use Rattle.std.specs.Prelude.{◌≤◌};

use crate::answer::Answer;
use crate::{answer, calls, made, said};
use demodulator::SoftDemodulator;
use receiving::Receiving;

// What is in each place of the room for lines: no byte of a line equals it.
const UNLINED: u8 = b'-';

// The number that the words ask for, up to the most.
fn asked(words: &[u8], name: &[u8], own: u64, most: usize) -> usize
    ensures { result ≤ most }
{
    (cases_text::count_behind(words, name, own) as usize).min(most)
}

fn counted(plain: Answer, text: usize, count: u64) -> Answer {
    let found = plain.found;
    Answer {
        word: plain.word,
        number: plain.number,
        changed: plain.changed,
        counted: text,
        count,
        new: plain.new,
        written: plain.written,
        past: plain.past,
        age: plain.age,
        waits: plain.waits,
        found,
        unused_changed: plain.unused_changed,
    }
}

// The answer, the record that the call left, and how many samples went in.
#[derive(Clone, Copy)]
struct AfterFeed {
    answer: Answer,
    left: SoftDemodulator,
    gone: usize,
}

fn fed(m: SoftDemodulator, count: usize, length: usize) -> AfterFeed
    requires { (count ≤ 8) × (length ≤ 200) }
{
    let samples = [100i16; 8];
    let mut room = [calls::UNWRITTEN; 200];
    let after = m.feed(&samples[..count], &mut room[..length]);
    let answer = after.answer;
    let next = after.demodulator;
    let plain = calls::left(
        said::heard(answer),
        calls::written(&room, &calls::UNWRITTEN, 0, 192),
        calls::written(&room, &calls::UNWRITTEN, 192, 200),
        m,
        next,
    );
    AfterFeed {
        answer: counted(plain, answer::FED, after.fed as u64),
        left: next,
        gone: after.fed,
    }
}

// So many samples in one call.
pub(crate) fn feed(words: &[u8], place: usize) -> Answer {
    let m = made::record(words, place);
    let count = asked(words, b"samples", 1, 8);
    let length = calls::room_size(words);
    let first = fed(m, count, length);
    first.answer
}

fn less(count: usize, gone: usize) -> usize
    requires { count ≤ 8 }
    ensures { result ≤ 8 }
{
    count.saturating_sub(gone)
}

// The call after it, with those that did not go in, on the record that it left.
pub(crate) fn rest(words: &[u8], place: usize) -> Answer {
    let m = made::record(words, place);
    let count = asked(words, b"samples", 1, 8);
    let length = calls::room_size(words);
    let first = fed(m, count, length);
    let left = first.left;
    let second = fed(left, less(count, first.gone), length);
    second.answer
}

// More than a byte stands for none.
fn byte_of(odd: Option<u8>) -> u64 {
    match odd {
        None => 256,
        Some(byte) => byte as u64,
    }
}

fn odd(words: &[u8]) -> Option<u8> {
    cases_text::names(words, b"odd").then_some(7)
}

fn with_odd(plain: Answer, before: u64, after: u64) -> Answer {
    let changed = plain.changed | (before != after);
    let found = plain.found;
    Answer {
        word: plain.word,
        number: plain.number,
        changed,
        counted: plain.counted,
        count: plain.count,
        new: plain.new,
        written: plain.written,
        past: plain.past,
        age: plain.age,
        waits: after < 256,
        found,
        unused_changed: plain.unused_changed,
    }
}

// So many bytes, with room for lines.
pub(crate) fn hear(words: &[u8], place: usize) -> Answer {
    let demodulator = made::record(words, place);
    let held = odd(words);
    let count = asked(words, b"bytes", 2, 16500);
    let length = asked(words, b"lines", 97, 200);
    let bytes = [100u8; 16500];
    let mut lines = [UNLINED; 200];
    let receiving = Receiving {
        demodulator,
        odd: held,
    };
    let after = receiving.hear(&bytes[..count], &mut lines[..length]);
    let answer = after.answer;
    let next = after.receiving;
    let left = next.odd;
    let plain = calls::left(
        said::done(answer, answer::ADMITTED),
        calls::written(&lines, &UNLINED, 0, 97),
        calls::written(&lines, &UNLINED, 97, 200),
        demodulator,
        next.demodulator,
    );
    let told = counted(plain, answer::TAKEN, after.consumed as u64);
    with_odd(told, byte_of(held), byte_of(left))
}
