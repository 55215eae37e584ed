// The sender: SoftModulator of the Rust's modem.rs as a record by value, which says its rate in samples a second. Frames go in, and samples for the sound card come out, with the actions that keep the two in step.
#![tactic(auto)]

use given_symbols::Traffic;
use protocol::Refusal;

mod action;
mod counts;
mod fit;
mod frame;
mod output;
mod within;

// A TxDelay, in steps of ten milliseconds.
#[derive(Clone, Copy)]
pub struct DelaySteps(pub u8);

// What the sound card counts.
#[derive(Clone, Copy)]
pub struct SampleCount(pub usize);

// How far the transmission at hand has been read out: the samples of its frame, those of them that were read, and the zeros that go out before them.
#[derive(Clone, Copy)]
pub struct Progress {
    pub next_len: usize,
    pub next_read: usize,
    pub tx_delay_padding: SampleCount,
}

// What is still to be told: the idle state, an end to be worked out, an end to be reported, the wish for a frame.
#[derive(Clone, Copy)]
pub struct Pending {
    pub update_idle: bool,
    pub calculate_tx_end: bool,
    pub report_tx_end: Option<SampleCount>,
    pub try_get_frame: bool,
}

// The sound card's buffer, as the last update gave it.
#[derive(Clone, Copy)]
pub struct OutputBuffer {
    pub output_latency: SampleCount,
    pub samples_in_buf: SampleCount,
    pub buf_capacity: SampleCount,
}

// At 24 kHz the first 2,000 places of the store and the first 41 of the window are used.
#[derive(Clone, Copy)]
pub struct SoftModulator {
    pub rate: u32,
    pub next_transmission: [i16; 4000],
    pub filter_win: [f32; 81],
    pub filter_cursor: usize,
    pub progress: Progress,
    pub pending: Pending,
    pub buffer: OutputBuffer,
}

// What is to be sent next. An Option of the three frames would be matched twice where this is matched once. The symbols of a frame stand beside
// the choice: they are lent, and of any number.
#[derive(Clone, Copy)]
pub enum ModulatorFrame {
    Nothing,
    Preamble(Traffic, DelaySteps),
    Symbols(Traffic),
    EndOfTransmission,
}

#[derive(Clone, Copy)]
pub enum ModulatorAction {
    TransmissionWillEnd(SampleCount),
    ReadOutput,
    SetIdle(bool),
    GetNextFrame,
    Nothing,
}

// A call's answer, or why it is refused, and the record that the next call is given.
#[derive(Clone, Copy)]
pub struct After<A> {
    pub answer: Result<A, Refusal>,
    pub modulator: SoftModulator,
}
