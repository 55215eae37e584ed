// A sender's record as plain numbers, there and back. The thirteen: rate, filter cursor, samples of the frame, samples read, padding, update
// idle, calculate end, end held, end, wish for a frame, latency, fill, capacity. The flags are 0 or 1.
ghost use Rattle.std.specs.Prelude.{◌≡◌};
ghost use Rattle.library_sender.specs.Layout.{numbers_code, report_in_lem, sender_in, held_of, end_of, numbers_of_lem};
ghost use Rattle.library_sender.specs.Memory.{memory_at, laid_out};

use library_codes::flag_of;
use modulator::{OutputBuffer, Pending, Progress, SampleCount, SoftModulator};

// 0 of numbers that are a sender's; else the code of the refusal.
pub fn check_numbers(n: &[u64; 13]) -> u32
    ensures { result ≡ numbers_code n.now }
{
    let known = (n[0] == 48000) | (n[0] == 24000);
    if !known {
        return 115;
    }
    let plain = (n[5] <= 1) & (n[6] <= 1) & (n[7] <= 1) & (n[9] <= 1);
    if !plain {
        return 101;
    }
    0
}

#[tactic(auto, unfolding(crate::specs::Layout::report_in_lem))]
fn read_report(n: &[u64; 13]) -> Option<SampleCount>
    ensures { result ≡ report_in_lem n.now }
{
    if n[7] == 0 {
        None
    } else {
        Some(SampleCount(n[8] as usize))
    }
}

pub(crate) fn read_record(store: &[i16; 4000], window: &[f32; 81], n: &[u64; 13]) -> SoftModulator
    requires { numbers_code n.now ≡ 0 }
    ensures { result ≡ sender_in store.now window.now n.now }
{
    let report_tx_end = read_report(n);
    let next_transmission = *store;
    let filter_win = *window;
    let progress = Progress {
        next_len: n[2] as usize,
        next_read: n[3] as usize,
        tx_delay_padding: SampleCount(n[4] as usize),
    };
    let update_idle = n[5] == 1;
    let calculate_tx_end = n[6] == 1;
    let try_get_frame = n[9] == 1;
    let pending = Pending {
        update_idle,
        calculate_tx_end,
        report_tx_end,
        try_get_frame,
    };
    let buffer = OutputBuffer {
        output_latency: SampleCount(n[10] as usize),
        samples_in_buf: SampleCount(n[11] as usize),
        buf_capacity: SampleCount(n[12] as usize),
    };
    let rate = n[0] as u32;
    let filter_cursor = n[1] as usize;
    SoftModulator {
        rate,
        next_transmission,
        filter_win,
        filter_cursor,
        progress,
        pending,
        buffer,
    }
}

fn count_reports(report: Option<SampleCount>) -> u64
    ensures { result ≡ held_of report }
{
    flag_of(report.is_some())
}

fn find_end(report: Option<SampleCount>) -> u64
    ensures { result ≡ end_of report }
{
    report.map_or(0, |end| end.0 as u64)
}

pub fn write_numbers(m: SoftModulator, n: &mut [u64; 13])
    ensures { n.new ≡ numbers_of_lem m }
{
    let pending = m.pending;
    let report = pending.report_tx_end;
    let held = count_reports(report);
    let end = find_end(report);
    let idle = flag_of(pending.update_idle);
    let calculate = flag_of(pending.calculate_tx_end);
    let wish = flag_of(pending.try_get_frame);
    *n = [
        m.rate as u64,
        m.filter_cursor as u64,
        m.progress.next_len as u64,
        m.progress.next_read as u64,
        m.progress.tx_delay_padding.0 as u64,
        idle,
        calculate,
        held,
        end,
        wish,
        m.buffer.output_latency.0 as u64,
        m.buffer.samples_in_buf.0 as u64,
        m.buffer.buf_capacity.0 as u64,
    ];
}

// A record into all of the memory.
pub fn lay_out(
    m: SoftModulator,
    store: &mut [i16; 4000],
    window: &mut [f32; 81],
    numbers: &mut [u64; 13],
)
    ensures { memory_at store.new window.new numbers.new ≡ laid_out m }
{
    write_numbers(m, numbers);
    let samples = m.next_transmission;
    let pulses = m.filter_win;
    *store = samples;
    *window = pulses;
}
