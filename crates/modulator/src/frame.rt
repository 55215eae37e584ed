// Frames go in: each kind's symbols, and the samples that they become.
ghost use Rattle.std.specs.Prelude.{◌≡◌, true, ◌≤◌, ◌<◌, length};
ghost use Rattle.numbers.specs.Firsts.{firsts};
ghost use Rattle.shaping.specs.Rate.{rate_fit, samples_in_lem, rate_of, tap_count};
ghost use Rattle.modulator.specs.Frame.{listing, preamble, given, ending, padding_of};
ghost use Rattle.modulator.specs.Record.{fresh, framed, with_pending};
ghost use Rattle.modulator.specs.Control.{dropped, ended};
ghost use Rattle.modulator.specs.Calls.{NewSays, ProvideNextFrameSays};

use super::fit::{record_fit, unfit_for};
use super::{
    After, DelaySteps, ModulatorFrame, OutputBuffer, Pending, Progress, SampleCount, SoftModulator,
};
use given_symbols::{Traffic, judge_frame};
use protocol::Refusal;
use pulse::push_symbols;
use shaping::PerSymbol;

// The frame takes the place of what is unread of the last one.
fn framed(
    m: SoftModulator,
    symbols: &[f32],
    padding: SampleCount,
    pending: Pending,
) -> SoftModulator
    requires { (rate_fit m.rate ≡ true) × (m.filter_cursor < tap_count (samples_in_lem m.rate)) × (length symbols.now ≤ 400) }
    ensures { result ≡ framed (rate_of m.rate) (listing symbols.now) padding.0 pending m }
{
    let mut store = m.next_transmission;
    let mut window = m.filter_win;
    let cursor = m.filter_cursor;
    let buffer = m.buffer;
    let rate = m.rate;
    let next = push_symbols(rate, &mut window, cursor, symbols, &mut store);
    let p = shaping::samples_in(rate);
    let len = p * symbols.len();
    let progress = Progress {
        next_len: len,
        next_read: 0,
        tx_delay_padding: padding,
    };
    SoftModulator {
        rate,
        next_transmission: store,
        filter_win: window,
        filter_cursor: next,
        progress,
        pending,
        buffer,
    }
}

fn preamble_symbols(traffic: Traffic) -> [f32; 192]
    ensures { result ≡ firsts (preamble traffic).symbol 192 }
{
    match traffic {
        Traffic::Ordinary => encode::generate_preamble(),
        Traffic::Bert => encode::generate_bert_preamble(),
    }
}

fn preamble(m: SoftModulator, traffic: Traffic, tx_delay: DelaySteps) -> SoftModulator
    requires { (rate_fit m.rate ≡ true) × (m.filter_cursor < tap_count (samples_in_lem m.rate)) }
    ensures { result ≡ framed (rate_of m.rate) (preamble traffic) (padding_of (samples_in_lem m.rate) tx_delay.0 m.buffer.output_latency.0) m.pending m }
{
    let pending = m.pending;
    let latency = m.buffer.output_latency;
    let p = PerSymbol::of(m.rate).unwrap();
    let delay = tx_delay.in_samples(p);
    let padding = delay.saturating_sub(latency);
    let symbols = preamble_symbols(traffic);
    framed(m, &symbols, padding, pending)
}

fn given(m: SoftModulator, symbols: &[f32]) -> SoftModulator
    requires { (rate_fit m.rate ≡ true) × (m.filter_cursor < tap_count (samples_in_lem m.rate)) × (length symbols.now ≡ 192) }
    ensures { result ≡ framed (rate_of m.rate) (given symbols.now) m.progress.tx_delay_padding.0 m.pending m }
{
    let pending = m.pending;
    let padding = m.progress.tx_delay_padding;
    framed(m, symbols, padding, pending)
}

fn end_of_transmission(m: SoftModulator) -> SoftModulator
    requires { (rate_fit m.rate ≡ true) × (m.filter_cursor < tap_count (samples_in_lem m.rate)) }
    ensures { result ≡ framed (rate_of m.rate) ending m.progress.tx_delay_padding.0 (ended m.pending) m }
{
    let mut pending = m.pending;
    pending.calculate_tx_end = true;
    let padding = m.progress.tx_delay_padding;
    let symbols = encode::generate_ending();
    framed(m, &symbols, padding, pending)
}

fn without_wish(mut m: SoftModulator) -> SoftModulator
    ensures { result ≡ with_pending (dropped m.pending) m.buffer m }
{
    m.pending.try_get_frame = false;
    m
}

fn fresh(rate: u32) -> SoftModulator
    ensures { result ≡ fresh rate }
{
    SoftModulator {
        rate,
        next_transmission: [0i16; 4000],
        filter_win: [0.0f32; 81],
        filter_cursor: 0,
        progress: Progress {
            next_len: 0,
            next_read: 0,
            tx_delay_padding: SampleCount(0),
        },
        pending: Pending {
            update_idle: true,
            calculate_tx_end: false,
            report_tx_end: None,
            try_get_frame: false,
        },
        buffer: OutputBuffer {
            output_latency: SampleCount(0),
            samples_in_buf: SampleCount(0),
            buf_capacity: SampleCount(0),
        },
    }
}

impl SoftModulator {
    // A rate that is none is refused, and its record is refused by every call.
    pub fn new(rate: u32) -> After<()>
        ensures { NewSays rate result }
    {
        let modulator = fresh(rate);
        if !shaping::is_rate(rate) {
            return After {
                answer: Err(Refusal::WrongRate),
                modulator,
            };
        }
        After {
            answer: Ok(()),
            modulator,
        }
    }

    // The symbols are read for a frame of given symbols alone.
    pub fn provide_next_frame(self, frame: ModulatorFrame, symbols: &[f32]) -> After<()>
        ensures { ProvideNextFrameSays self frame symbols.now result }
    {
        if !record_fit(self) {
            return After {
                answer: Err(unfit_for(self)),
                modulator: self,
            };
        }
        let modulator = match frame {
            ModulatorFrame::Nothing => without_wish(self),
            ModulatorFrame::Preamble(traffic, tx_delay) => preamble(self, traffic, tx_delay),
            ModulatorFrame::Symbols(traffic) => {
                if let Err(why) = judge_frame(traffic, symbols) {
                    return After {
                        answer: Err(why),
                        modulator: self,
                    };
                }
                given(self, symbols)
            }
            ModulatorFrame::EndOfTransmission => end_of_transmission(self),
        };
        After {
            answer: Ok(()),
            modulator,
        }
    }
}
