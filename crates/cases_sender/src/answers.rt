// What the list says of a call: its answer, and what the sender keeps after it.
ghost use Rattle.std.specs.Prelude.{◌≤◌};

use modulator::{ModulatorAction, SampleCount, SoftModulator};
use protocol::Refusal;
use std::io::{self, Write};

// What is in each place of the room before a read.
pub(crate) const UNWRITTEN: i16 = 12345;

// No line of the list has these words.
pub(crate) fn put_refusal(out: &mut impl Write, number: u32) -> io::Result<()> {
    out.write_all(b" refused")?;
    cases_text::put_count(out, number as u64)
}

// The samples that were written; of the rest only what is not as it was laid.
pub(crate) fn put_room(out: &mut impl Write, room: [i16; 4000], written: usize) -> io::Result<()> {
    cases_text::put_count(out, written as u64)?;
    for (i, sample) in room.iter().enumerate() {
        if i < written {
            cases_text::put_signed(out, *sample)?;
        } else if *sample != UNWRITTEN {
            out.write_all(b" and past them")?;
            cases_text::put_signed(out, *sample)?;
        }
    }
    Ok(())
}

pub(crate) fn put_action(
    out: &mut impl Write,
    action: Result<ModulatorAction, Refusal>,
) -> io::Result<()> {
    match action {
        Err(why) => put_refusal(out, why.number())?,
        Ok(ModulatorAction::TransmissionWillEnd(end)) => {
            out.write_all(b" end")?;
            cases_text::put_count(out, end.0 as u64)?;
        }
        Ok(ModulatorAction::ReadOutput) => {
            out.write_all(b" read")?;
        }
        Ok(ModulatorAction::SetIdle(idle)) => {
            if idle {
                out.write_all(b" idle yes")?;
            } else {
                out.write_all(b" idle no")?;
            }
        }
        Ok(ModulatorAction::GetNextFrame) => {
            out.write_all(b" frame")?;
        }
        Ok(ModulatorAction::Nothing) => {
            out.write_all(b" nothing")?;
        }
    }
    Ok(())
}

// The places of the window that a rate uses.
fn window_places(rate: u32) -> usize
    ensures { result ≤ 81 }
{
    if rate == 24000 { 41 } else { 81 }
}

pub(crate) fn put_window(out: &mut impl Write, m: SoftModulator) -> io::Result<()> {
    cases_text::put_count(out, m.filter_cursor as u64)?;
    cases_text::put_floats(out, &m.filter_win[..window_places(m.rate)])
}

fn put_flag(out: &mut impl Write, flag: bool) -> io::Result<()> {
    if flag {
        out.write_all(b"1")
    } else {
        out.write_all(b"0")
    }
}

fn put_report(out: &mut impl Write, report: Option<SampleCount>) -> io::Result<()> {
    match report {
        None => out.write_all(b" none"),
        Some(end) => cases_text::put_count(out, end.0 as u64),
    }
}

// Length, read place and padding, the three flags, the reported end, and the card's buffer.
pub(crate) fn put_kept(out: &mut impl Write, m: SoftModulator) -> io::Result<()> {
    let progress = m.progress;
    let pending = m.pending;
    let report = pending.report_tx_end;
    let buffer = m.buffer;
    out.write_all(b" :")?;
    cases_text::put_count(out, progress.next_len as u64)?;
    cases_text::put_count(out, progress.next_read as u64)?;
    cases_text::put_count(out, progress.tx_delay_padding.0 as u64)?;
    out.write_all(b" ")?;
    put_flag(out, pending.update_idle)?;
    put_flag(out, pending.try_get_frame)?;
    put_flag(out, pending.calculate_tx_end)?;
    put_report(out, report)?;
    cases_text::put_count(out, buffer.samples_in_buf.0 as u64)?;
    cases_text::put_count(out, buffer.buf_capacity.0 as u64)?;
    cases_text::put_count(out, buffer.output_latency.0 as u64)
}
