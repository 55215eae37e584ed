// Whether two records are the same, one not-a-number as good as another.
use modulator::{OutputBuffer, Pending, Progress, SampleCount, SoftModulator};

fn same_window(a: &[f32], b: &[f32]) -> bool {
    a.iter().zip(b).all(|(x, y)| cases_text::same_float(*x, *y))
}

fn same_progress(a: Progress, b: Progress) -> bool {
    a.next_len == b.next_len
        && a.next_read == b.next_read
        && a.tx_delay_padding.0 == b.tx_delay_padding.0
}

fn same_report(a: Option<SampleCount>, b: Option<SampleCount>) -> bool {
    a.map(|end| end.0) == b.map(|end| end.0)
}

fn same_pending(a: Pending, b: Pending) -> bool {
    a.update_idle == b.update_idle
        && a.calculate_tx_end == b.calculate_tx_end
        && a.try_get_frame == b.try_get_frame
        && same_report(a.report_tx_end, b.report_tx_end)
}

fn same_buffer(a: OutputBuffer, b: OutputBuffer) -> bool {
    a.output_latency.0 == b.output_latency.0
        && a.samples_in_buf.0 == b.samples_in_buf.0
        && a.buf_capacity.0 == b.buf_capacity.0
}

pub(crate) fn same(a: SoftModulator, b: SoftModulator) -> bool {
    a.rate == b.rate
        && a.next_transmission == b.next_transmission
        && same_window(&a.filter_win, &b.filter_win)
        && a.filter_cursor == b.filter_cursor
        && same_progress(a.progress, b.progress)
        && same_pending(a.pending, b.pending)
        && same_buffer(a.buffer, b.buffer)
}
