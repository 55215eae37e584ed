// The receiver's record in bytes: 23 numbers; the candidate's diff, gain and shift and the newest filtered value; the ring's 1,920 values;
// the window's 162 places. The numbers are both cursors, the count, the candidate's kind (4 for none), age and taken-at, whether a wait is
// held, what is left of it, its age and its mark, whether a timer is held and its end, whether a reply is owed, the rate; then an answer:
// the refusal's number or 0, the offered kind or what the carrier query says, the offer's sample, taken-at, age, mark and gain (its bit
// pattern), the carrier after a sample, and how many samples were given, by `feed` how many went in. The numbers end at byte 184, the four
// floats at 200, the ring at 7,880 and the window at 8,204.
ghost use Rattle.std.specs.Prelude.{◌≡◌, ◌<◌, ◌≤◌, length};

use demodulator::{Candidate, Control, SoftDemodulator, Waiting};
use protocol::Kind;
use std::io::{self, Write};

// An answer in numbers.
#[derive(Clone, Copy)]
pub(crate) struct Words {
    pub refusal: u64,
    pub answer: u64,
    pub at: u64,
    pub taken_at: u64,
    pub age: u64,
    pub mark: u64,
    pub gain: u64,
    pub carrier: u64,
    pub given: usize,
}

pub(crate) const NO_KIND: u64 = 4;

fn kind_of(number: u64) -> Kind {
    if number == 0 {
        Kind::Lsf
    } else if number == 1 {
        Kind::Bert
    } else if number == 2 {
        Kind::Stream
    } else {
        Kind::Packet
    }
}

pub(crate) fn number_of(kind: Kind) -> u64 {
    kind as u64
}

// A float's bit pattern.
pub(crate) fn pattern_of(x: f32) -> u64 {
    let mut bytes = [0u8; 8];
    wire::put_floats(&mut bytes, &[x]);
    let mut pattern = [0u64; 1];
    wire::numbers(&bytes, &mut pattern);
    pattern[0]
}

fn candidate_of(n: [u64; 23], four: [f32; 4]) -> Candidate {
    let kind = n[3];
    let age = n[4] % 256;
    if NO_KIND <= kind {
        return Candidate::Nothing;
    }
    Candidate::Held {
        kind: kind_of(kind),
        age: age as u8,
        diff: four[0],
        gain: four[1],
        shift: four[2],
        taken_at: n[5],
    }
}

fn wait_of(n: [u64; 23]) -> Option<Waiting> {
    let left = n[7] % 65536;
    let age = n[8] % 256;
    if n[6] == 0 {
        return None;
    }
    Some(Waiting {
        left: left as u16,
        age: age as u8,
        replaced: n[9] != 0,
    })
}

fn timer_of(n: [u64; 23]) -> Option<u64> {
    (n[10] != 0).then_some(n[11])
}

fn control_of(n: [u64; 23], four: [f32; 4]) -> Control {
    Control {
        candidate: candidate_of(n, four),
        wait: wait_of(n),
        dcd: timer_of(n),
        owed: n[12] != 0,
        sample: n[2],
    }
}

fn rate_of(n: [u64; 23]) -> u32 {
    (n[13] % 0x1_0000_0000) as u32
}

pub(crate) fn record_of(from: &[u8]) -> SoftDemodulator
    requires { 8204 ≤ length from.now }
{
    let mut n = [0u64; 23];
    wire::numbers(from, &mut n);
    let mut four = [0.0f32; 4];
    wire::floats(&from[184..], &mut four);
    let mut rx_win = [0.0f32; 1920];
    wire::floats(&from[200..], &mut rx_win);
    let mut filter_win = [0i16; 162];
    wire::samples(&from[7880..], &mut filter_win);
    SoftDemodulator {
        rate: rate_of(n),
        filter_win,
        filter_cursor: n[0] as usize,
        rx_win,
        rx_cursor: n[1] as usize,
        control: control_of(n, four),
    }
}

fn kind_held(candidate: Candidate) -> u64 {
    match candidate {
        Candidate::Nothing => NO_KIND,
        Candidate::Held {
            kind,
            age: _,
            diff: _,
            gain: _,
            shift: _,
            taken_at: _,
        } => number_of(kind),
    }
}

fn age_of(candidate: Candidate) -> u64 {
    match candidate {
        Candidate::Nothing => 0,
        Candidate::Held {
            kind: _,
            age,
            diff: _,
            gain: _,
            shift: _,
            taken_at: _,
        } => age as u64,
    }
}

fn taken_at_of(candidate: Candidate) -> u64 {
    match candidate {
        Candidate::Nothing => 0,
        Candidate::Held {
            kind: _,
            age: _,
            diff: _,
            gain: _,
            shift: _,
            taken_at,
        } => taken_at,
    }
}

fn four_of(candidate: Candidate, newest: f32) -> [f32; 4] {
    match candidate {
        Candidate::Nothing => [0.0, 0.0, 0.0, newest],
        Candidate::Held {
            kind: _,
            age: _,
            diff,
            gain,
            shift,
            taken_at: _,
        } => [diff, gain, shift, newest],
    }
}

fn numbers_of(
    rate: u32,
    filter_cursor: usize,
    rx_cursor: usize,
    control: Control,
    told: Words,
) -> [u64; 23] {
    let candidate = control.candidate;
    let wait = control.wait;
    let timer = control.dcd;
    [
        filter_cursor as u64,
        rx_cursor as u64,
        control.sample,
        kind_held(candidate),
        age_of(candidate),
        taken_at_of(candidate),
        wait.is_some() as u64,
        wait.map_or(0, |held| held.left as u64),
        wait.map_or(0, |held| held.age as u64),
        wait.map_or(0, |held| held.replaced as u64),
        timer.is_some() as u64,
        timer.unwrap_or(0),
        control.owed as u64,
        rate as u64,
        told.refusal,
        told.answer,
        told.at,
        told.taken_at,
        told.age,
        told.mark,
        told.gain,
        told.carrier,
        told.given as u64,
    ]
}

// The ring's place before the cursor.
fn place_before(rate: u32, cursor: usize) -> usize
    ensures { result < 1920 }
{
    if rate == 24_000 {
        (cursor % 960 + 959) % 960
    } else {
        (cursor % 1920 + 1919) % 1920
    }
}

// The record up to its rings.
fn lay_front(to: &mut [u8], m: SoftDemodulator, told: Words)
    requires { 200 ≤ length to.old }
    ensures { length to.new ≡ length to.old }
{
    let control = m.control;
    let candidate = control.candidate;
    let numbers = numbers_of(m.rate, m.filter_cursor, m.rx_cursor, control, told);
    let last = place_before(m.rate, m.rx_cursor);
    let newest = m.rx_win[last];
    let four = four_of(candidate, newest);
    wire::put_numbers(to, &numbers);
    wire::put_floats(&mut to[184..], &four);
}

fn lay_rings(to: &mut [u8], rx_win: [f32; 1920], filter_win: [i16; 162])
    requires { 8204 ≤ length to.old }
    ensures { length to.new ≡ length to.old }
{
    wire::put_floats(&mut to[200..], &rx_win);
    wire::put_samples(&mut to[7880..], &filter_win);
}

pub(crate) fn put_record(out: &mut impl Write, m: SoftDemodulator, told: Words) -> io::Result<()> {
    let rx_win = m.rx_win;
    let filter_win = m.filter_win;
    let mut bytes = [0u8; 8204];
    lay_front(&mut bytes, m, told);
    lay_rings(&mut bytes, rx_win, filter_win);
    out.write_all(&bytes)
}

// What is noted of a sample.
pub(crate) fn put_front(out: &mut impl Write, m: SoftDemodulator, told: Words) -> io::Result<()> {
    let mut bytes = [0u8; 200];
    lay_front(&mut bytes, m, told);
    out.write_all(&bytes)
}
