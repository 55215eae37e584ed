// The answer to a call, and how it is written.
use std::io::{self, Write};

// What an offer reports of its burst: the sample at which it was taken, 0 where there is no offer, the age at which its wait was set, and the mark.
#[derive(Clone, Copy, PartialEq, Eq)]
pub(crate) struct Found {
    pub at: u64,
    pub kept: u64,
    pub marked: bool,
}

pub(crate) fn nothing_found() -> Found {
    Found {
        at: 0,
        kept: 0,
        marked: false,
    }
}

// Its word; the refusal's number; whether record or room is not as it was; how many samples went in or bytes were taken,
// with the text that says which; how many of the ring's values are new; how many of the room's first places are written,
// as many as an offer or a line has, and of those past them; the age of the candidate that is held then, 256 where none is;
// whether a byte waits; what an offer reports; and whether a place that the record's rate does not use is not as it was.
#[derive(Clone, Copy, PartialEq, Eq)]
pub(crate) struct Answer {
    pub word: usize,
    pub number: u32,
    pub changed: bool,
    pub counted: usize,
    pub count: u64,
    pub new: u64,
    pub written: u64,
    pub past: u64,
    pub age: u64,
    pub waits: bool,
    pub found: Found,
    pub unused_changed: bool,
}

// The texts that are written, by their places among them; those of a call that is admitted and leaves a record come first.
pub(crate) const REFUSED: usize = 0;

pub(crate) const QUIET: usize = 1;

pub(crate) const OFFERED: usize = 2;

pub(crate) const DONE: usize = 3;

pub(crate) const ADMITTED: usize = 4;

pub(crate) const NO: usize = 5;

pub(crate) const YES: usize = 6;

pub(crate) const NEXT: usize = 7;

pub(crate) const IN: usize = 8;

pub(crate) const PLACES: usize = 9;

const CHANGED: usize = 10;

const COMMA: usize = 11;

const NEW: usize = 12;

const WRITTEN: usize = 13;

const PAST: usize = 14;

const AGE: usize = 15;

pub(crate) const NOTHING: usize = 16;

const UNCHANGED: usize = 17;

pub(crate) const NO_CALL: usize = 18;

pub(crate) const FED: usize = 19;

pub(crate) const TAKEN: usize = 20;

const WAITS: usize = 21;

const TAKEN_AT: usize = 22;

const KEPT: usize = 23;

const MARKED: usize = 24;

pub(crate) const MADE: usize = 25;

const UNUSED_CHANGED: usize = 26;

pub(crate) fn put_text(out: &mut impl Write, k: usize) -> io::Result<()> {
    let texts =
        b"refused|quiet|offered|done|admitted|no|yes|; | in| places| and changed|,| new| written| past|, age||, unchanged|no such call| fed| taken|, a byte waits|, taken at|, kept age|, marked|made|, unused changed";
    out.write_all(cases_text::cell(texts, k))
}

fn put_part(
    out: &mut impl Write,
    yes: bool,
    before: usize,
    n: u64,
    after: usize,
) -> io::Result<()> {
    if yes {
        put_text(out, before)?;
        cases_text::put_count(out, n)?;
        put_text(out, after)?;
    }
    Ok(())
}

fn put_refusal(out: &mut impl Write, number: u32, changed: bool) -> io::Result<()> {
    cases_text::put_count(out, number as u64)?;
    if changed {
        put_text(out, CHANGED)?;
    }
    Ok(())
}

fn put_found(out: &mut impl Write, found: Found) -> io::Result<()> {
    let offered = 0 < found.at;
    put_part(out, offered, TAKEN_AT, found.at, NOTHING)?;
    put_part(out, offered, KEPT, found.kept, NOTHING)?;
    if found.marked {
        put_text(out, MARKED)?;
    }
    Ok(())
}

fn put_taken(out: &mut impl Write, a: Answer) -> io::Result<()> {
    let offered = (0 < a.written) | (0 < a.past);
    let found = a.found;
    put_part(out, a.counted != NOTHING, COMMA, a.count, a.counted)?;
    put_part(out, true, COMMA, a.new, NEW)?;
    put_part(out, offered, COMMA, a.written, WRITTEN)?;
    put_part(out, offered, COMMA, a.past, PAST)?;
    put_part(out, a.age < 256, AGE, a.age, NOTHING)?;
    put_found(out, found)?;
    if a.waits {
        put_text(out, WAITS)?;
    }
    if !a.changed {
        put_text(out, UNCHANGED)?;
    }
    if a.unused_changed {
        put_text(out, UNUSED_CHANGED)?;
    }
    Ok(())
}

pub(crate) fn put(out: &mut impl Write, a: Answer) -> io::Result<()> {
    put_text(out, a.word)?;
    if a.word == REFUSED {
        put_refusal(out, a.number, a.changed)?;
        return Ok(());
    }
    if a.word < NO {
        put_taken(out, a)?;
    }
    Ok(())
}
