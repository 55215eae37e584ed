// What is as it was.
use crate::layout;
use demodulator::{Candidate, Control, SoftDemodulator, Waiting};
use protocol::Kind;

// How many places of a ring, or of a part of it, hold another value. Floats are held to each other by their bits.
pub(crate) fn new_values(a: &[f32], b: &[f32]) -> u64 {
    a.iter()
        .zip(b)
        .filter(|(x, y)| !cases_text::same_float(**x, **y))
        .count() as u64
}

// A candidate in numbers: kind 4 and age 256, more than a candidate's can be, where there is none.
#[derive(Clone, Copy)]
pub(crate) struct Held {
    pub kind: u8,
    pub age: u64,
    pub diff: f32,
    pub gain: f32,
    pub shift: f32,
    pub taken_at: u64,
}

fn place_in_order(kind: Kind) -> u8 {
    kind as u8
}

pub(crate) fn held_of(candidate: Candidate) -> Held {
    match candidate {
        Candidate::Nothing => Held {
            kind: 4,
            age: 256,
            diff: 0.0,
            gain: 0.0,
            shift: 0.0,
            taken_at: 0,
        },
        Candidate::Held {
            kind,
            age,
            diff,
            gain,
            shift,
            taken_at,
        } => Held {
            kind: place_in_order(kind),
            age: age as u64,
            diff,
            gain,
            shift,
            taken_at,
        },
    }
}

fn same_held(a: Held, b: Held) -> bool {
    a.kind == b.kind
        && a.age == b.age
        && cases_text::same_float(a.diff, b.diff)
        && cases_text::same_float(a.gain, b.gain)
        && cases_text::same_float(a.shift, b.shift)
        && a.taken_at == b.taken_at
}

fn same_wait(a: Option<Waiting>, b: Option<Waiting>) -> bool {
    match (a, b) {
        (None, None) => true,
        (Some(w), Some(v)) => w.left == v.left && w.age == v.age && w.replaced == v.replaced,
        _ => false,
    }
}

fn same_control(a: Control, b: Control) -> bool {
    same_held(held_of(a.candidate), held_of(b.candidate))
        && same_wait(a.wait, b.wait)
        && a.dcd == b.dcd
        && a.owed == b.owed
        && a.sample == b.sample
}

// All but the ring's values.
pub(crate) fn same_rest(a: SoftDemodulator, b: SoftDemodulator) -> bool {
    a.rate == b.rate
        && a.filter_cursor == b.filter_cursor
        && a.rx_cursor == b.rx_cursor
        && a.filter_win == b.filter_win
        && same_control(a.control, b.control)
}

// The places of window and ring that lie past those of the rate.
pub(crate) fn unused_same(a: SoftDemodulator, b: SoftDemodulator) -> bool {
    let p = layout::samples_in(a.rate);
    &a.filter_win[16 * p + 2..] == &b.filter_win[16 * p + 2..]
        && new_values(&a.rx_win[192 * p..], &b.rx_win[192 * p..]) == 0
}
