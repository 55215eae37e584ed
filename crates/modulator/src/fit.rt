// Whether a record is one that the rules speak of: its rate is one of the two, and document 01's 'Unfit sender', one function for each group of its phrases.
ghost use Rattle.std.specs.Prelude.{◌≡◌};
ghost use Rattle.shaping.specs.Rate.{samples_in_lem};
ghost use Rattle.protocol.specs.Refusals.{bare, on_paper};
ghost use Rattle.modulator.specs.Fit.{progress_fit_lem, count_fit_lem, buffer_fit_lem, report_fit_lem, record_fit_lem, unfit_number};

use super::counts::{end_limit, padding_limit, store_places};
use super::within::all_within;
use super::{OutputBuffer, Progress, SampleCount, SoftModulator};
use protocol::Refusal;
use pulse::FULL_SYMBOL;
use shaping::PerSymbol;

fn progress_fit(p: PerSymbol, progress: Progress) -> bool
    ensures { result ≡ progress_fit_lem p progress }
{
    (progress.next_len <= store_places(p))
        & (progress.next_read <= progress.next_len)
        & (progress.tx_delay_padding.0 <= padding_limit(p).0)
}

// A fill, a capacity or a latency that is taken.
pub(crate) fn count_fit(n: SampleCount) -> bool
    ensures { result ≡ count_fit_lem n.0 }
{
    n.0 <= 16777216
}

fn buffer_fit(buffer: OutputBuffer) -> bool
    ensures { result ≡ buffer_fit_lem buffer }
{
    count_fit(buffer.samples_in_buf)
        & count_fit(buffer.buf_capacity)
        & count_fit(buffer.output_latency)
        & (buffer.samples_in_buf.0 <= buffer.buf_capacity.0)
}

fn report_fit(p: PerSymbol, report: Option<SampleCount>) -> bool
    ensures { result ≡ report_fit_lem p report }
{
    match report {
        None => true,
        Some(end) => end.0 <= end_limit(p),
    }
}

pub(crate) fn record_fit(m: SoftModulator) -> bool
    ensures { result ≡ record_fit_lem (samples_in_lem m.rate) m }
{
    let Some(p) = PerSymbol::of(m.rate) else {
        return false;
    };
    let places = 8 * p.samples() + 1;
    let pending = m.pending;
    let progress = m.progress;
    let buffer = m.buffer;
    (m.filter_cursor < places)
        & all_within(FULL_SYMBOL, &m.filter_win[..places])
        & progress_fit(p, progress)
        & buffer_fit(buffer)
        & report_fit(p, pending.report_tx_end)
}

// What a record that is not fit is refused with: a rate that is none comes before all else.
pub(crate) fn unfit_for(m: SoftModulator) -> Refusal
    ensures { on_paper result ≡ bare (unfit_number m) }
{
    if shaping::is_rate(m.rate) {
        Refusal::RecordUnfit
    } else {
        Refusal::WrongRate
    }
}
