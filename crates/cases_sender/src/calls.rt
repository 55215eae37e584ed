// The calls of a session, each with the operands of its line.
ghost use Rattle.std.specs.Prelude.{◌≤◌};

use crate::answers;
use given_symbols::Traffic;
use modulator::{DelaySteps, ModulatorFrame, SampleCount, SoftModulator};
use std::io::{self, Write};

fn count(line: &[u8], k: usize) -> usize {
    cases_text::decimal(cases_text::word(line, k)) as usize
}

// The words from one on as floats: a missing one is 0.
fn floats<const N: usize>(line: &[u8], from: usize) -> [f32; N]
    requires { from ≤ 2 }
{
    let mut floats = [0.0f32; N];
    for (i, float) in floats.iter_mut().enumerate() {
        *float = cases_text::float(cases_text::word(line, from + i));
    }
    floats
}

pub(crate) fn provided(
    out: &mut impl Write,
    m: SoftModulator,
    frame: ModulatorFrame,
    line: &[u8],
) -> io::Result<SoftModulator> {
    let symbols = floats::<192>(line, 1);
    let left = m.provide_next_frame(frame, &symbols);
    let answer = left.answer;
    if let Err(why) = answer {
        answers::put_refusal(out, why.number())?;
    }
    Ok(left.modulator)
}

pub(crate) fn preamble(
    out: &mut impl Write,
    m: SoftModulator,
    traffic: Traffic,
    line: &[u8],
) -> io::Result<SoftModulator> {
    let steps = count(line, 1) % 256;
    provided(
        out,
        m,
        ModulatorFrame::Preamble(traffic, DelaySteps(steps as u8)),
        line,
    )
}

pub(crate) fn read(
    out: &mut impl Write,
    m: SoftModulator,
    line: &[u8],
) -> io::Result<SoftModulator> {
    let mut room = [answers::UNWRITTEN; 4000];
    let length = count(line, 1).min(room.len());
    let left = m.read_output_samples(&mut room[..length]);
    let answer = left.answer;
    match answer {
        Err(why) => answers::put_refusal(out, why.number())?,
        Ok(n) => answers::put_room(out, room, n.0)?,
    }
    Ok(left.modulator)
}

pub(crate) fn updated(
    out: &mut impl Write,
    m: SoftModulator,
    line: &[u8],
) -> io::Result<SoftModulator> {
    let left = m.update_output_buffer(
        SampleCount(count(line, 1)),
        SampleCount(count(line, 2)),
        SampleCount(count(line, 3)),
    );
    let answer = left.answer;
    if let Err(why) = answer {
        answers::put_refusal(out, why.number())?;
    }
    Ok(left.modulator)
}

pub(crate) fn ran(out: &mut impl Write, m: SoftModulator) -> io::Result<SoftModulator> {
    let left = m.run();
    let answer = left.answer;
    answers::put_action(out, answer)?;
    Ok(left.modulator)
}

pub(crate) fn windowed(m: SoftModulator, line: &[u8]) -> SoftModulator {
    let mut next = m;
    next.filter_win = floats::<81>(line, 2);
    next.filter_cursor = count(line, 1);
    next
}
