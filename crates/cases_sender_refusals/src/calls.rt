// The sender's calls on a record, each with the operands that a line names.
use crate::answer::Answer;
use crate::same::same;
use crate::{answer, made};
use given_symbols::Traffic;
use modulator::{DelaySteps, ModulatorFrame, SampleCount, SoftModulator};

// What a call answers, and the record that it leaves.
#[derive(Clone, Copy)]
pub(crate) struct Left {
    pub answer: Answer,
    pub after: SoftModulator,
}

// The burst of a BERT frame, DF55.
const HEAD: [f32; 8] = [-1.0, 1.0, -1.0, -1.0, 1.0, 1.0, 1.0, 1.0];

// The burst, if the line names it, and one value in all other places.
fn headed(parts: &[u8], others: f32) -> [f32; 193] {
    let mut symbols = [others; 193];
    if cases_text::names(parts, b"df55") {
        symbols[..8].copy_from_slice(&HEAD);
    }
    symbols
}

// The same but for two places, or one.
fn symbols(parts: &[u8]) -> [f32; 193] {
    let others = cases_text::float_behind(parts, b"others", 0.5);
    let mut symbols = headed(parts, others);
    let at = made::count(parts, made::PLACE) % 193;
    let one = symbols[at];
    symbols[at] = cases_text::float_behind(parts, b"symbol", one);
    let second = made::count(parts, made::SECOND_PLACE) % 193;
    let other = symbols[second];
    symbols[second] = cases_text::float_behind(parts, b"second", other);
    symbols
}

// Symbols beside a frame that needs none are not to be seen in the record: the same call with no symbols tells.
fn beside(m: SoftModulator, frame: ModulatorFrame, after: SoftModulator) -> usize {
    let none = [0.0f32; 0];
    let bare = m.provide_next_frame(frame, &none);
    let with_none = bare.modulator;
    if same(after, with_none) {
        answer::AS_WITH_NONE
    } else {
        answer::NOT_AS_WITH_NONE
    }
}

// Such symbols are given where a line names what the others are.
fn provided(m: SoftModulator, parts: &[u8], frame: ModulatorFrame) -> Left {
    let symbols = symbols(parts);
    let given = made::count(parts, made::GIVEN).min(193);
    let left = m.provide_next_frame(frame, &symbols[..given]);
    let answer = left.answer;
    let after = left.modulator;
    let done = if cases_text::names(parts, b"others") {
        beside(m, frame, after)
    } else {
        answer::DONE
    };
    Left {
        answer: answer::of_done(answer, same(m, after), done),
        after,
    }
}

// So much room, up to sixteen places.
fn read(m: SoftModulator, parts: &[u8]) -> Left {
    let mut room = [answer::UNWRITTEN; 16];
    let size = made::count(parts, made::ROOM).min(16);
    let left = m.read_output_samples(&mut room[..size]);
    let answer = left.answer;
    let after = left.modulator;
    Left {
        answer: answer::of_read(answer, same(m, after), room),
        after,
    }
}

fn updated(m: SoftModulator, parts: &[u8]) -> Left {
    let left = m.update_output_buffer(
        SampleCount(made::count(parts, made::TO_FILL)),
        SampleCount(made::count(parts, made::TO_CAPACITY)),
        SampleCount(made::count(parts, made::TO_LATENCY)),
    );
    let answer = left.answer;
    let after = left.modulator;
    Left {
        answer: answer::of_done(answer, same(m, after), answer::DONE),
        after,
    }
}

fn ran(m: SoftModulator) -> Left {
    let left = m.run();
    let answer = left.answer;
    let after = left.modulator;
    Left {
        answer: answer::of_action(answer, same(m, after)),
        after,
    }
}

// A fresh record of the line's rate. There is none before it to be kept.
fn begun(parts: &[u8]) -> Left {
    let left = SoftModulator::new(made::rate(parts));
    let answer = left.answer;
    let after = left.modulator;
    Left {
        answer: answer::of_done(answer, true, answer::DONE),
        after,
    }
}

// The calls by their places in this list, the looks at a record and the turn among them; 0 for any other word.
pub(crate) fn number(name: &[u8]) -> usize {
    let list =
        b"none preamble symbols end read update action shown first turn bert-preamble bert new";
    cases_text::place_behind(list, name)
}

fn frame(call: usize) -> ModulatorFrame {
    match call {
        1 => ModulatorFrame::Nothing,
        2 => ModulatorFrame::Preamble(Traffic::Ordinary, DelaySteps(1)),
        3 => ModulatorFrame::Symbols(Traffic::Ordinary),
        11 => ModulatorFrame::Preamble(Traffic::Bert, DelaySteps(1)),
        12 => ModulatorFrame::Symbols(Traffic::Bert),
        _ => ModulatorFrame::EndOfTransmission,
    }
}

// A call on the line's record. Where the line names a value for one place of the window, this is the place.
pub(crate) fn called(before: SoftModulator, parts: &[u8], call: usize, place: usize) -> Left {
    let m = made::start(before, parts, place);
    match call {
        5 => read(m, parts),
        6 => updated(m, parts),
        7 => ran(m),
        13 => begun(parts),
        _ => provided(m, parts, frame(call)),
    }
}
