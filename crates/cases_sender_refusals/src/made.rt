// Made-up records: a fit one, but for what a line names.
use modulator::{OutputBuffer, Pending, Progress, SampleCount, SoftModulator};

// The names' places in the fit line, which is in `count`.
const CURSOR: usize = 0;

const LENGTH: usize = 2;

const READ_PLACE: usize = 4;

const PADDING: usize = 6;

const FILL: usize = 8;

const CAPACITY: usize = 10;

const LATENCY: usize = 12;

pub(crate) const GIVEN: usize = 14;

pub(crate) const PLACE: usize = 16;

pub(crate) const ROOM: usize = 18;

pub(crate) const TO_FILL: usize = 20;

pub(crate) const TO_CAPACITY: usize = 22;

pub(crate) const TO_LATENCY: usize = 24;

pub(crate) const SECOND_PLACE: usize = 26;

const RATE: usize = 28;

// The number that a line names, or else the fit line's. It has the counts of the fit record, and then the operands of the calls.
pub(crate) fn count(parts: &[u8], place: usize) -> usize {
    let fit =
        b"cursor 3 length 8 read_place 2 padding 5 fill 100 capacity 200 latency 30 given 192 place 0 room 16 to_fill 0 to_capacity 2000 to_latency 0 second_place 0 rate 48000";
    let name = cases_text::word(fit, place);
    let own = cases_text::count_behind(fit, name, 0);
    cases_text::count_behind(parts, name, own) as usize
}

// A sample of its own in each place, so that none can move unseen: place i holds 1000 + i.
fn store() -> [i16; 4000] {
    let mut store = [0i16; 4000];
    for (place, sample) in store.iter_mut().enumerate() {
        *sample = (place + 1000) as i16;
    }
    store
}

// The same for the window, from 1. `cases_receiver_refusals` has the like: the two share no crate of made-up records.
fn ramp() -> [f32; 81] {
    let mut window = [0.0f32; 81];
    let mut value: f32 = 1.0;
    for place in &mut window {
        *place = value;
        value += 1.0;
    }
    window
}

// The line may name a value for all places, and one for this place alone.
fn window(parts: &[u8], place: usize) -> [f32; 81] {
    let mut window = ramp();
    let named = cases_text::place_behind(parts, b"window");
    if 0 < named {
        window = [cases_text::float(cases_text::word(parts, named)); 81];
    }
    let at = place % 81;
    let own = window[at];
    window[at] = cases_text::float_behind(parts, b"value", own);
    window
}

fn progress(parts: &[u8]) -> Progress {
    Progress {
        next_len: count(parts, LENGTH),
        next_read: count(parts, READ_PLACE),
        tx_delay_padding: SampleCount(count(parts, PADDING)),
    }
}

// An end is owed, or else reported, with the wish for a frame.
fn pending(parts: &[u8]) -> Pending {
    let named = cases_text::place_behind(parts, b"report");
    if 0 < named {
        let end = cases_text::decimal(cases_text::word(parts, named)) as usize;
        Pending {
            update_idle: true,
            calculate_tx_end: false,
            report_tx_end: Some(SampleCount(end)),
            try_get_frame: true,
        }
    } else {
        Pending {
            update_idle: true,
            calculate_tx_end: true,
            report_tx_end: None,
            try_get_frame: false,
        }
    }
}

fn buffer(parts: &[u8]) -> OutputBuffer {
    OutputBuffer {
        output_latency: SampleCount(count(parts, LATENCY)),
        samples_in_buf: SampleCount(count(parts, FILL)),
        buf_capacity: SampleCount(count(parts, CAPACITY)),
    }
}

pub(crate) fn rate(parts: &[u8]) -> u32 {
    let named = count(parts, RATE) % 0x1_0000_0000;
    named as u32
}

fn record(parts: &[u8], place: usize) -> SoftModulator {
    SoftModulator {
        rate: rate(parts),
        next_transmission: store(),
        filter_win: window(parts, place),
        filter_cursor: count(parts, CURSOR),
        progress: progress(parts),
        pending: pending(parts),
        buffer: buffer(parts),
    }
}

// Of the line's rate, whatever it is.
fn fresh(parts: &[u8]) -> SoftModulator {
    let left = SoftModulator::new(rate(parts));
    left.modulator
}

// The record that the line before left, a fresh one, or a made-up one. The cell begins with a space.
pub(crate) fn start(before: SoftModulator, parts: &[u8], place: usize) -> SoftModulator {
    match cases_text::place_behind(b"then fresh", cases_text::word(parts, 1)) {
        1 => before,
        2 => fresh(parts),
        _ => record(parts, place),
    }
}
