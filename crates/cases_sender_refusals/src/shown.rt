// A look at a record.
use modulator::{OutputBuffer, Pending, Progress, SampleCount, SoftModulator};
use std::io::{self, Write};

fn put_label(out: &mut impl Write, label: usize) -> io::Result<()> {
    let list = b" length| read| padding| fill| capacity| latency| owed| end| wished| idle";
    out.write_all(cases_text::cell(list, label))
}

fn put_number(out: &mut impl Write, label: usize, n: usize) -> io::Result<()> {
    put_label(out, label)?;
    cases_text::put_count(out, n as u64)
}

fn put_numbers(out: &mut impl Write, progress: Progress, buffer: OutputBuffer) -> io::Result<()> {
    put_number(out, 0, progress.next_len)?;
    put_number(out, 1, progress.next_read)?;
    put_number(out, 2, progress.tx_delay_padding.0)?;
    put_number(out, 3, buffer.samples_in_buf.0)?;
    put_number(out, 4, buffer.buf_capacity.0)?;
    put_number(out, 5, buffer.output_latency.0)
}

fn put_report(out: &mut impl Write, report: Option<SampleCount>) -> io::Result<()> {
    if let Some(end) = report {
        put_number(out, 7, end.0)?;
    }
    Ok(())
}

fn put_pending(out: &mut impl Write, pending: Pending) -> io::Result<()> {
    let report = pending.report_tx_end;
    if pending.calculate_tx_end {
        put_label(out, 6)?;
    }
    put_report(out, report)?;
    if pending.try_get_frame {
        put_label(out, 8)?;
    }
    if pending.update_idle {
        put_label(out, 9)?;
    }
    Ok(())
}

// All but the store and the window.
pub(crate) fn all(out: &mut impl Write, m: SoftModulator) -> io::Result<SoftModulator> {
    put_numbers(out, m.progress, m.buffer)?;
    put_pending(out, m.pending)?;
    Ok(m)
}

// The first sample of the store.
pub(crate) fn first(out: &mut impl Write, m: SoftModulator) -> io::Result<SoftModulator> {
    cases_text::put_signed(out, m.next_transmission[0])?;
    Ok(m)
}
