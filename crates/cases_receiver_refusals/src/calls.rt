// The receiver's calls on a made-up record.
ghost use Rattle.std.specs.Prelude.{◌≤◌};

use crate::answer::Answer;
use crate::said::Said;
use crate::{answer, made, many, said, same};
use demodulator::{Reply, SoftDemodulator};

// What is in each place of the room before a sample: no symbol that is offered here equals it.
pub(crate) const UNWRITTEN: f32 = -7.25;

// How many of the places from `from` on, below `to`, are not as they were laid.
pub(crate) fn written<T: PartialEq>(places: &[T], laid: &T, from: usize, to: usize) -> u64 {
    places
        .iter()
        .take(to)
        .skip(from)
        .filter(|place| *place != laid)
        .count() as u64
}

// The answer of a call that lays so many symbols and leaves another record.
pub(crate) fn left(
    said: Said,
    written: u64,
    past: u64,
    before: SoftDemodulator,
    after: SoftDemodulator,
) -> Answer {
    let ring = before.rx_win;
    let rings = after.rx_win;
    let control = after.control;
    let candidate = control.candidate;
    let held = same::held_of(candidate);
    let new = same::new_values(&ring, &rings);
    let found = said.found;
    Answer {
        word: said.word,
        number: said.number,
        changed: (0 < new) | (0 < written) | (0 < past) | !same::same_rest(before, after),
        counted: answer::NOTHING,
        count: 0,
        new,
        written,
        past,
        age: held.age,
        waits: false,
        found,
        unused_changed: !same::unused_same(before, after),
    }
}

// How much of the room the words ask for, up to 200.
pub(crate) fn room_size(words: &[u8]) -> usize
    ensures { result ≤ 200 }
{
    (cases_text::count_behind(words, b"room", 200) as usize).min(200)
}

fn sample(words: &[u8], place: usize) -> Answer {
    let m = made::record(words, place);
    let length = room_size(words);
    let mut room = [UNWRITTEN; 200];
    let after = m.demod(100, &mut room[..length]);
    let answer = after.answer;
    left(
        said::heard(answer),
        written(&room, &UNWRITTEN, 0, 192),
        written(&room, &UNWRITTEN, 192, 200),
        m,
        after.demodulator,
    )
}

fn reply(words: &[u8], place: usize, reply: Reply) -> Answer {
    let m = made::record(words, place);
    let after = m.reply(reply);
    let answer = after.answer;
    left(said::done(answer, answer::DONE), 0, 0, m, after.demodulator)
}

// The query gives no record back: what it was given is what it leaves.
fn carrier(words: &[u8], place: usize) -> Answer {
    let m = made::record(words, place);
    left(said::queried(m.data_carrier_detect()), 0, 0, m, m)
}

// A fresh record of the line's rate: there is none before it to be kept.
fn begin(words: &[u8]) -> Answer {
    let begun = SoftDemodulator::new(made::rate(words));
    let answer = begun.answer;
    let m = begun.demodulator;
    left(said::done(answer, answer::MADE), 0, 0, m, m)
}

// A word that names no call.
fn unknown() -> Answer {
    Answer {
        word: answer::NO_CALL,
        number: 0,
        changed: false,
        counted: answer::NOTHING,
        count: 0,
        new: 0,
        written: 0,
        past: 0,
        age: 256,
        waits: false,
        found: answer::nothing_found(),
        unused_changed: false,
    }
}

// The answer to a call on the record that the words make up, their value in this place of the ring.
pub(crate) fn called(words: &[u8], call: &[u8], place: usize) -> Answer {
    let which = cases_text::place_behind(b"sample accept reject carrier feed rest hear new", call);
    if which == 1 {
        return sample(words, place);
    }
    if which == 2 {
        return reply(words, place, Reply::Accepted);
    }
    if which == 3 {
        return reply(words, place, Reply::Rejected);
    }
    if which == 4 {
        return carrier(words, place);
    }
    if which == 5 {
        return many::feed(words, place);
    }
    if which == 6 {
        return many::rest(words, place);
    }
    if which == 7 {
        return many::hear(words, place);
    }
    if which == 8 {
        return begin(words);
    }
    unknown()
}
