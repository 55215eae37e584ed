// The transmission, part by part, beside the stretch.
ghost use Rattle.std.specs.Prelude.{◌≡◌, ◌+◌, ◌≤◌, length};
ghost use Rattle.modulator.specs.Paper.{read_paper};
ghost use Rattle.modulator_run.specs.Pieces.{counted};
ghost use Rattle.sending.specs.Text.{none, bad_line_lem};
ghost use Rattle.supplier.specs.Check.{checked_paper, ours, beside};
ghost use Rattle.supplier.specs.Parts.{PartSays};

use super::Checked;
use super::beside::{is_yes, meet_padding, meet_part};
use given_symbols::Traffic;
use modulator::{DelaySteps, ModulatorFrame, SampleCount, SoftModulator};
use protocol::Refusal;

// A frame that takes no symbols does not look at those beside it.
const NO_SYMBOLS: [f32; 192] = [0.0; 192];

// What a part beside the stretch gives, the place in the stretch after it, and the sender after it.
#[derive(Clone, Copy)]
pub(crate) struct AfterPart {
    pub verdict: Checked,
    pub at: usize,
    pub modulator: SoftModulator,
}

// How many samples a read has written.
#[tactic(auto, unfolding(modulator_run::specs::Pieces::counted))]
fn count(answer: Result<SampleCount, Refusal>) -> usize
    ensures { result ≡ counted (read_paper answer) }
{
    answer.map_or(0, |n| n.0)
}

// The room holds the longest frame, the end of transmission.
fn part(
    modulator: SoftModulator,
    frame: ModulatorFrame,
    symbols: [f32; 192],
    samples: &[i16],
    at: usize,
) -> AfterPart
    requires { at ≤ length samples.now }
    ensures { PartSays modulator frame symbols samples.now at result }
{
    let given = modulator.provide_next_frame(frame, &symbols);
    let mut room = [0i16; 2720];
    let read = given.modulator.read_output_samples(&mut room);
    let answer = read.answer;
    let written = count(answer);
    let verdict = meet_part(&room, written, samples, at);
    let next = read.modulator;
    let end = at + written;
    AfterPart {
        verdict,
        at: end,
        modulator: next,
    }
}

// All lines are good.
pub(crate) fn compare(padding: usize, lines: &[u8], samples: &[i16]) -> Checked
    requires { bad_line_lem lines.now ≡ none }
    ensures { checked_paper result ≡ beside 1 (ours padding lines.now) samples.now }
{
    let zeros = meet_padding(padding, samples);
    if !is_yes(zeros) {
        return zeros;
    }
    let begun = SoftModulator::new(48000);
    let fresh = begun.modulator;
    let first = part(
        fresh,
        ModulatorFrame::Preamble(Traffic::Ordinary, DelaySteps(0)),
        NO_SYMBOLS,
        samples,
        padding,
    );
    let opened = first.verdict;
    if !is_yes(opened) {
        return opened;
    }
    let mut modulator = first.modulator;
    let mut at = first.at;
    let (whole, _) = lines.as_chunks::<97>();
    for line in whole {
        let symbols = house::line_symbols(*line).unwrap();
        let next = part(
            modulator,
            ModulatorFrame::Symbols(Traffic::Ordinary),
            symbols,
            samples,
            at,
        );
        let met = next.verdict;
        if !is_yes(met) {
            return met;
        }
        modulator = next.modulator;
        at = next.at;
    }
    let last = part(
        modulator,
        ModulatorFrame::EndOfTransmission,
        NO_SYMBOLS,
        samples,
        at,
    );
    let closed = last.verdict;
    if !is_yes(closed) {
        return closed;
    }
    let end = last.at;
    if end < samples.len() {
        return Checked::Long;
    }
    Checked::Yes
}
