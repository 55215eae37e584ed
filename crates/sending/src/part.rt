// A part of the transmission: a frame goes to the sender, and its samples are read as bytes, from a fresh start all of them.
ghost use Rattle.std.specs.Prelude.{◌≡◌};
ghost use Rattle.modulator.specs.Paper.{done_paper, read_paper};
ghost use Rattle.modulator_run.specs.Pieces.{counted};
ghost use Rattle.sending.specs.Text.{sample_bytes};
ghost use Rattle.sending.specs.Calls.{part_of, closed, record_told, Says, OpenSays};

use super::{AfterPart, Sending};
use given_symbols::Traffic;
use modulator::{DelaySteps, ModulatorFrame, SampleCount, SoftModulator};
use protocol::Refusal;

// A frame that takes no symbols does not look at those beside it.
const NO_SYMBOLS: [f32; 192] = [0.0; 192];

fn bytes_of(samples: [i16; 2720]) -> [u8; 5440]
    ensures { result ≡ sample_bytes samples }
{
    let mut bytes = [0u8; 5440];
    for (i, sample) in samples.iter().enumerate() {
        let pair = house::bytes_of_i16(*sample);
        bytes[2 * i..2 * i + 2].copy_from_slice(&pair);
    }
    bytes
}

// How many samples a read has written.
#[tactic(auto, unfolding(modulator_run::specs::Pieces::counted))]
fn count(answer: Result<SampleCount, Refusal>) -> usize
    ensures { result ≡ counted (read_paper answer) }
{
    answer.map_or(0, |n| n.0)
}

// No frame is given: a call that asks for nothing but a fit record.
pub(crate) fn test_record(s: Sending) -> Result<(), Refusal>
    ensures { done_paper result ≡ record_told s.modulator }
{
    let symbols = NO_SYMBOLS;
    let asked = s
        .modulator
        .provide_next_frame(ModulatorFrame::Nothing, &symbols);
    asked.answer
}

// The room holds the longest frame, the end of transmission.
pub(crate) fn part(
    s: Sending,
    frame: ModulatorFrame,
    symbols: [f32; 192],
    bad: bool,
    last: bool,
) -> AfterPart
    ensures { Says (part_of s frame symbols bad last) result }
{
    let given = s.modulator.provide_next_frame(frame, &symbols);
    let mut room = [0i16; 2720];
    let read = given.modulator.read_output_samples(&mut room);
    let counted = read.answer;
    let length = 2 * count(counted);
    let answer = given.answer;
    let modulator = read.modulator;
    let line = s.line;
    let sending = Sending {
        modulator,
        line,
        have: s.have,
        number: s.number,
    };
    AfterPart {
        answer,
        sending,
        bytes: bytes_of(room),
        length,
        taken: 0,
        bad,
        last,
    }
}

// A line that was begun and has not ended is bad.
#[tactic(auto, unfolding(crate::specs::Calls::closed, house::specs::Line::no_symbols))]
pub(crate) fn close(s: Sending) -> AfterPart
    ensures { Says (closed s) result }
{
    let begun = s.have > 0;
    part(
        s,
        ModulatorFrame::EndOfTransmission,
        NO_SYMBOLS,
        begun,
        true,
    )
}

impl Sending {
    // A TxDelay of 0: no padding goes before the preamble.
    pub fn open() -> AfterPart
        ensures { OpenSays result }
    {
        let begun = SoftModulator::new(48000);
        let modulator = begun.modulator;
        let sending = Sending {
            modulator,
            line: [0; 97],
            have: 0,
            number: 1,
        };
        part(
            sending,
            ModulatorFrame::Preamble(Traffic::Ordinary, DelaySteps(0)),
            NO_SYMBOLS,
            false,
            false,
        )
    }
}
