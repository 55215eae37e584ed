// A call's answer: its words, the number and the place that go with them, whether a refusal changed anything, and what stands in the room of a read.
ghost use Rattle.std.specs.Prelude.{◌≤◌};

use modulator::{ModulatorAction, SampleCount};
use protocol::{Place, Refusal};
use std::io::{self, Write};

#[derive(Clone, Copy, PartialEq, Eq)]
pub(crate) struct Answer {
    pub words: usize,
    pub number: u64,
    pub place: Place,
    pub changed: bool,
    pub room: [i16; 16],
}

// The words' places in the list of `put_words`. A number goes with the first three.
const REFUSED: usize = 0;

const WROTE: usize = 1;

const TRANSMIT_END: usize = 2;

const READ_OUTPUT: usize = 3;

const IDLE_YES: usize = 4;

const IDLE_NO: usize = 5;

const GET_A_FRAME: usize = 6;

const NOTHING: usize = 7;

pub(crate) const DONE: usize = 8;

pub(crate) const AS_WITH_NONE: usize = 9;

pub(crate) const NOT_AS_WITH_NONE: usize = 10;

const AND_CHANGED: usize = 11;

// What is in each place of the room before a read: no sample of a made-up store equals it.
pub(crate) const UNWRITTEN: i16 = -7777;

fn plain(words: usize, number: u64) -> Answer {
    Answer {
        words,
        number,
        place: Place::Nothing,
        changed: false,
        room: [UNWRITTEN; 16],
    }
}

// A refused call has to keep the record.
fn refused(why: Refusal, kept: bool) -> Answer {
    Answer {
        words: REFUSED,
        number: why.number() as u64,
        place: why.place(),
        changed: !kept,
        room: [UNWRITTEN; 16],
    }
}

// `done` is said of a call that is not refused.
pub(crate) fn of_done(answer: Result<(), Refusal>, kept: bool, done: usize) -> Answer {
    match answer {
        Err(why) => refused(why, kept),
        Ok(()) => plain(done, 0),
    }
}

// A refused read has to keep the room too.
pub(crate) fn of_read(answer: Result<SampleCount, Refusal>, kept: bool, room: [i16; 16]) -> Answer {
    match answer {
        Err(why) => refused(why, kept & (room == [UNWRITTEN; 16])),
        Ok(count) => Answer {
            words: WROTE,
            number: count.0 as u64,
            place: Place::Nothing,
            changed: false,
            room,
        },
    }
}

pub(crate) fn of_action(answer: Result<ModulatorAction, Refusal>, kept: bool) -> Answer {
    match answer {
        Err(why) => refused(why, kept),
        Ok(ModulatorAction::TransmissionWillEnd(end)) => plain(TRANSMIT_END, end.0 as u64),
        Ok(ModulatorAction::ReadOutput) => plain(READ_OUTPUT, 0),
        Ok(ModulatorAction::SetIdle(idle)) => plain(if idle { IDLE_YES } else { IDLE_NO }, 0),
        Ok(ModulatorAction::GetNextFrame) => plain(GET_A_FRAME, 0),
        Ok(ModulatorAction::Nothing) => plain(NOTHING, 0),
    }
}

fn put_words(out: &mut impl Write, words: usize) -> io::Result<()> {
    let list =
        b" refused| wrote| transmit end| read output| idle yes| idle no| get a frame| nothing| done| done, as with none| done, not as with none| and changed";
    out.write_all(cases_text::cell(list, words))
}

fn put_sample(out: &mut impl Write, sample: i16) -> io::Result<()> {
    if sample == UNWRITTEN {
        out.write_all(b" -")
    } else {
        cases_text::put_signed(out, sample)
    }
}

fn put_room(out: &mut impl Write, room: [i16; 16], size: usize) -> io::Result<()>
    requires { size ≤ 16 }
{
    out.write_all(b":")?;
    for sample in &room[..size] {
        put_sample(out, *sample)?;
    }
    Ok(())
}

fn put_place(out: &mut impl Write, place: Place) -> io::Result<()> {
    match place {
        Place::Nothing => (),
        Place::Symbol(at) => {
            out.write_all(b" at")?;
            cases_text::put_count(out, at as u64)?;
        }
        Place::Line(line) => {
            out.write_all(b" line")?;
            cases_text::put_count(out, line as u64)?;
        }
    }
    Ok(())
}

// What is in the room is shown where the line says how large it is.
pub(crate) fn put(out: &mut impl Write, answer: Answer, parts: &[u8]) -> io::Result<()> {
    let room = answer.room;
    let place = answer.place;
    put_words(out, answer.words)?;
    if answer.words <= TRANSMIT_END {
        cases_text::put_count(out, answer.number)?;
    }
    put_place(out, place)?;
    if answer.changed {
        put_words(out, AND_CHANGED)?;
    }
    if answer.words == WROTE {
        let size = cases_text::count_behind(parts, b"room", 17) as usize;
        if size <= 16 {
            put_room(out, room, size)?;
        }
    }
    Ok(())
}
