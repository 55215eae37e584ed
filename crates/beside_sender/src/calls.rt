// The calls by their numbers. Each puts out what it left.
ghost use Rattle.std.specs.Prelude.{◌≤◌};

use crate::layout::Words;
use crate::{layout, room};
use given_symbols::Traffic;
use modulator::{DelaySteps, ModulatorAction, ModulatorFrame, SampleCount, SoftModulator};
use protocol::{Place, Refusal};
use std::io::{self, Write};

const FRESH: u64 = 0;

const PROVIDE: u64 = 1;

const READ: u64 = 2;

const UPDATE: u64 = 3;

// A frame by its number: 0 for none, 1 for a preamble, 2 for given symbols, 3 for the end, 4 and 5 for the BERT preamble and frame.
fn frame_of(number: u64, steps: u64) -> ModulatorFrame {
    if number == 0 {
        ModulatorFrame::Nothing
    } else if number == 1 {
        ModulatorFrame::Preamble(Traffic::Ordinary, DelaySteps((steps % 256) as u8))
    } else if number == 2 {
        ModulatorFrame::Symbols(Traffic::Ordinary)
    } else if number == 4 {
        ModulatorFrame::Preamble(Traffic::Bert, DelaySteps((steps % 256) as u8))
    } else if number == 5 {
        ModulatorFrame::Symbols(Traffic::Bert)
    } else {
        ModulatorFrame::EndOfTransmission
    }
}

fn told(refusal: u32, action: u64, amount: usize) -> Words {
    Words {
        refusal,
        action,
        amount,
    }
}

// A refusal by its number, with its symbol's place, its line's number, or 0.
fn refused(why: Refusal) -> Words {
    let place = why.place();
    match place {
        Place::Nothing => told(why.number(), 0, 0),
        Place::Symbol(at) => told(why.number(), 0, at),
        Place::Line(line) => told(why.number(), 0, line),
    }
}

fn done(answer: Result<(), Refusal>) -> Words {
    match answer {
        Err(why) => refused(why),
        Ok(()) => told(0, 0, 0),
    }
}

fn wrote(answer: Result<SampleCount, Refusal>) -> Words {
    match answer {
        Err(why) => refused(why),
        Ok(count) => told(0, 0, count.0),
    }
}

fn idle_number(yes: bool) -> u64 {
    if yes { 3 } else { 4 }
}

// An action by its number: 0 for nothing, 1 for the end, 2 to read, 3 and 4 for idle yes and no, 5 to get a frame.
fn ran(answer: Result<ModulatorAction, Refusal>) -> Words {
    match answer {
        Err(why) => refused(why),
        Ok(ModulatorAction::TransmissionWillEnd(end)) => told(0, 1, end.0),
        Ok(ModulatorAction::ReadOutput) => told(0, 2, 0),
        Ok(ModulatorAction::SetIdle(yes)) => told(0, idle_number(yes), 0),
        Ok(ModulatorAction::GetNextFrame) => told(0, 5, 0),
        Ok(ModulatorAction::Nothing) => told(0, 0, 0),
    }
}

// Only a frame comes with symbols.
pub(crate) fn symbols_given(asked: [u64; 4]) -> usize
    ensures { result ≤ 400 }
{
    if asked[0] == PROVIDE {
        crate::count(asked[3], 400)
    } else {
        0
    }
}

fn begin(out: &mut impl Write, rate: u64) -> io::Result<()> {
    let named = rate % 0x1_0000_0000;
    let after = SoftModulator::new(named as u32);
    let answer = after.answer;
    let next = after.modulator;
    layout::put_record(out, next, done(answer))
}

fn provide(
    out: &mut impl Write,
    sender: SoftModulator,
    asked: [u64; 4],
    symbols: &[f32],
) -> io::Result<()> {
    let after = sender.provide_next_frame(frame_of(asked[1], asked[2]), symbols);
    let answer = after.answer;
    let next = after.modulator;
    layout::put_record(out, next, done(answer))
}

fn read_into(out: &mut impl Write, sender: SoftModulator, room: &mut [i16]) -> io::Result<()> {
    let after = sender.read_output_samples(room);
    let answer = after.answer;
    let next = after.modulator;
    layout::put_record(out, next, wrote(answer))?;
    room::put(out, room)
}

// Whoever asks knows what every place of the room holds before the call.
fn read(out: &mut impl Write, sender: SoftModulator, size: u64) -> io::Result<()> {
    let mut room = [21845i16; 130000];
    let lent = crate::count(size, 130000);
    read_into(out, sender, &mut room[0..lent])
}

fn update(out: &mut impl Write, sender: SoftModulator, asked: [u64; 4]) -> io::Result<()> {
    let after = sender.update_output_buffer(
        SampleCount(asked[1] as usize),
        SampleCount(asked[2] as usize),
        SampleCount(asked[3] as usize),
    );
    let answer = after.answer;
    let next = after.modulator;
    layout::put_record(out, next, done(answer))
}

fn run(out: &mut impl Write, sender: SoftModulator) -> io::Result<()> {
    let after = sender.run();
    let answer = after.answer;
    let next = after.modulator;
    layout::put_record(out, next, ran(answer))
}

// A fresh record, a frame, a read, an update, and otherwise the next action.
pub(crate) fn call(
    out: &mut impl Write,
    sender: SoftModulator,
    asked: [u64; 4],
    symbols: &[f32],
) -> io::Result<()> {
    let number = asked[0];
    if number == FRESH {
        begin(out, asked[1])
    } else if number == PROVIDE {
        provide(out, sender, asked, symbols)
    } else if number == READ {
        read(out, sender, asked[1])
    } else if number == UPDATE {
        update(out, sender, asked)
    } else {
        run(out, sender)
    }
}
