// The sender's record in bytes: 16 numbers, the window's 81 values, the store's 4,000 samples. The numbers are the cursor, the length, the read place, the padding, whether idle is to be told,
// whether an end is owed, whether one is to be reported and which, the wish for a frame, the latency, the fill, the capacity, the rate; then an answer: the refusal's number or 0, the action, and the
// count or the place that goes with it. The numbers end at byte 128, the window at 452 and the store at 8,452.
ghost use Rattle.std.specs.Prelude.{◌≡◌, ◌≤◌, length};

use modulator::{OutputBuffer, Pending, Progress, SampleCount, SoftModulator};
use std::io::{self, Write};

// An answer in numbers.
#[derive(Clone, Copy)]
pub(crate) struct Words {
    pub refusal: u32,
    pub action: u64,
    pub amount: usize,
}

fn progress_of(n: [u64; 16]) -> Progress {
    Progress {
        next_len: n[1] as usize,
        next_read: n[2] as usize,
        tx_delay_padding: SampleCount(n[3] as usize),
    }
}

fn report_of(n: [u64; 16]) -> Option<SampleCount> {
    if n[6] == 0 {
        None
    } else {
        Some(SampleCount(n[7] as usize))
    }
}

fn pending_of(n: [u64; 16]) -> Pending {
    Pending {
        update_idle: n[4] != 0,
        calculate_tx_end: n[5] != 0,
        report_tx_end: report_of(n),
        try_get_frame: n[8] != 0,
    }
}

fn buffer_of(n: [u64; 16]) -> OutputBuffer {
    OutputBuffer {
        output_latency: SampleCount(n[9] as usize),
        samples_in_buf: SampleCount(n[10] as usize),
        buf_capacity: SampleCount(n[11] as usize),
    }
}

fn rate_of(n: [u64; 16]) -> u32 {
    (n[12] % 0x1_0000_0000) as u32
}

pub(crate) fn record_of(from: &[u8]) -> SoftModulator
    requires { 8452 ≤ length from.now }
{
    let mut n = [0u64; 16];
    wire::numbers(from, &mut n);
    let mut filter_win = [0.0f32; 81];
    wire::floats(&from[128..], &mut filter_win);
    let mut next_transmission = [0i16; 4000];
    wire::samples(&from[452..], &mut next_transmission);
    SoftModulator {
        rate: rate_of(n),
        next_transmission,
        filter_win,
        filter_cursor: n[0] as usize,
        progress: progress_of(n),
        pending: pending_of(n),
        buffer: buffer_of(n),
    }
}

fn end_of(report: Option<SampleCount>) -> u64 {
    report.map_or(0, |end| end.0 as u64)
}

fn numbers_of(
    rate: u32,
    cursor: usize,
    progress: Progress,
    pending: Pending,
    buffer: OutputBuffer,
    told: Words,
) -> [u64; 16] {
    let report = pending.report_tx_end;
    [
        cursor as u64,
        progress.next_len as u64,
        progress.next_read as u64,
        progress.tx_delay_padding.0 as u64,
        pending.update_idle as u64,
        pending.calculate_tx_end as u64,
        report.is_some() as u64,
        end_of(report),
        pending.try_get_frame as u64,
        buffer.output_latency.0 as u64,
        buffer.samples_in_buf.0 as u64,
        buffer.buf_capacity.0 as u64,
        rate as u64,
        told.refusal as u64,
        told.action,
        told.amount as u64,
    ]
}

fn lay_values(to: &mut [u8], filter_win: [f32; 81], next_transmission: [i16; 4000])
    requires { 8452 ≤ length to.old }
    ensures { length to.new ≡ length to.old }
{
    wire::put_floats(&mut to[128..], &filter_win);
    wire::put_samples(&mut to[452..], &next_transmission);
}

pub(crate) fn put_record(out: &mut impl Write, m: SoftModulator, told: Words) -> io::Result<()> {
    let next_transmission = m.next_transmission;
    let filter_win = m.filter_win;
    let progress = m.progress;
    let pending = m.pending;
    let buffer = m.buffer;
    let numbers = numbers_of(m.rate, m.filter_cursor, progress, pending, buffer, told);
    let mut bytes = [0u8; 8452];
    wire::put_numbers(&mut bytes, &numbers);
    lay_values(&mut bytes, filter_win, next_transmission);
    out.write_all(&bytes)
}
