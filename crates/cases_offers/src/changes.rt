// The lines of a sample: what could be seen of the receiver before it, and what can be seen after it.
use demodulator::{Candidate, SoftDemodulator};
use protocol::{Kind, Refusal};
use search::Waiting;
use std::io::{self, Write};

// A candidate in numbers: its kind by the order of trial, NO_KIND for none.
#[derive(Clone, Copy)]
pub(crate) struct Held {
    pub kind: u64,
    pub age: u64,
    pub diff: f32,
    pub gain: f32,
    pub shift: f32,
    pub taken_at: u64,
}

// A wait in numbers: what is left, 0 for none, the age at which it was set, and the mark, 1 for yes.
#[derive(Clone, Copy)]
pub(crate) struct Waited {
    pub left: u64,
    pub age: u64,
    pub mark: u64,
}

// The control in numbers: the timer's end or NO_TIMER.
#[derive(Clone, Copy)]
pub(crate) struct Seen {
    pub count: u64,
    pub timer: u64,
    pub held: Held,
    pub wait: Waited,
}

const NO_KIND: u64 = 4;

const NO_TIMER: u64 = 18446744073709551615;

pub(crate) fn kind_number(kind: Kind) -> u64 {
    kind as u64
}

fn nothing_held() -> Held {
    Held {
        kind: NO_KIND,
        age: 0,
        diff: 0.0,
        gain: 0.0,
        shift: 0.0,
        taken_at: 0,
    }
}

fn held_of(candidate: Candidate) -> Held {
    match candidate {
        Candidate::Nothing => nothing_held(),
        Candidate::Held {
            kind,
            age,
            diff,
            gain,
            shift,
            taken_at,
        } => Held {
            kind: kind_number(kind),
            age: age as u64,
            diff,
            gain,
            shift,
            taken_at,
        },
    }
}

fn wait_in(wait: Option<Waiting>) -> Waited {
    match wait {
        None => Waited {
            left: 0,
            age: 0,
            mark: 0,
        },
        Some(w) => Waited {
            left: w.left as u64,
            age: w.age as u64,
            mark: w.replaced as u64,
        },
    }
}

// The timer's end as far as the carrier query tells of it: an answer that does not fit the timer shows as an end of 0, which no list has.
fn end_told(answer: Result<bool, Refusal>, timer: Option<u64>) -> u64 {
    match answer {
        Err(_) => 0,
        Ok(true) => timer.unwrap_or(0),
        Ok(false) => NO_TIMER,
    }
}

pub(crate) fn look_at(receiver: SoftDemodulator) -> Seen {
    let control = receiver.control;
    let candidate = control.candidate;
    let wait = control.wait;
    let timer = control.dcd;
    Seen {
        count: control.sample,
        timer: end_told(receiver.data_carrier_detect(), timer),
        held: held_of(candidate),
        wait: wait_in(wait),
    }
}

// A kind by its number. The programs that write one share `cases_text` alone, which knows no kinds.
pub(crate) fn put_kind(out: &mut impl Write, kind: u64) -> io::Result<()> {
    match kind {
        0 => out.write_all(b" lsf"),
        1 => out.write_all(b" bert"),
        2 => out.write_all(b" stream"),
        3 => out.write_all(b" packet"),
        _ => out.write_all(b" none"),
    }
}

// A line begins with the number of the sample, which is one more than the count before it.
pub(crate) fn put_event(out: &mut impl Write, before: u64, event: &[u8]) -> io::Result<()> {
    write!(out, "{}", before.wrapping_add(1))?;
    out.write_all(b" ")?;
    out.write_all(event)
}

pub(crate) fn put_end(out: &mut impl Write, timer: u64) -> io::Result<()> {
    if timer == NO_TIMER {
        out.write_all(b" none")
    } else {
        cases_text::put_count(out, timer)
    }
}

pub(crate) fn put_held(out: &mut impl Write, held: Held) -> io::Result<()> {
    put_kind(out, held.kind)?;
    if held.kind != NO_KIND {
        cases_text::put_count(out, held.age)?;
        cases_text::put_float(out, held.diff)?;
        cases_text::put_float(out, held.gain)?;
        cases_text::put_float(out, held.shift)?;
        cases_text::put_count(out, held.taken_at)?;
    }
    Ok(())
}

pub(crate) fn put_waited(out: &mut impl Write, wait: Waited) -> io::Result<()> {
    if wait.left == 0 {
        out.write_all(b" none")
    } else {
        cases_text::put_count(out, wait.left)?;
        cases_text::put_count(out, wait.age)?;
        cases_text::put_count(out, wait.mark)
    }
}

fn put_timer(out: &mut impl Write, before: Seen, now: Seen) -> io::Result<()> {
    if now.timer != before.timer {
        put_event(out, before.count, b"timer")?;
        put_end(out, now.timer)?;
        cases_text::end_line(out)?;
    }
    Ok(())
}

// Whether a candidate is another but for so much on its age.
fn is_older(a: Held, b: Held, by: u64) -> bool {
    (a.kind == b.kind)
        & (a.age == b.age.wrapping_add(by))
        & (a.diff == b.diff)
        & (a.gain == b.gain)
        & (a.shift == b.shift)
        & (a.taken_at == b.taken_at)
}

fn put_candidate(out: &mut impl Write, count: u64, before: Held, now: Held) -> io::Result<()> {
    if is_older(now, before, 0) {
        return Ok(());
    }
    if is_older(now, before, 1) {
        put_event(out, count, b"age")?;
        put_kind(out, now.kind)?;
        cases_text::put_count(out, now.age)?;
    } else {
        put_event(out, count, b"take")?;
        put_held(out, now)?;
    }
    cases_text::end_line(out)
}

// That a wait runs down is no event.
fn put_wait(out: &mut impl Write, before: Seen, now: Seen) -> io::Result<()> {
    let was = before.wait;
    let is = now.wait;
    if is.left != was.left.saturating_sub(1) {
        put_event(out, before.count, b"wait")?;
        put_waited(out, is)?;
        cases_text::end_line(out)?;
    }
    Ok(())
}

// A candidate whose frame comes due goes with it.
fn still_held(before: Seen) -> Held {
    let wait = before.wait;
    if wait.left == 1 {
        nothing_held()
    } else {
        before.held
    }
}

pub(crate) fn put_changes(out: &mut impl Write, before: Seen, now: Seen) -> io::Result<()> {
    let found = now.held;
    put_timer(out, before, now)?;
    put_candidate(out, before.count, still_held(before), found)?;
    put_wait(out, before, now)
}
