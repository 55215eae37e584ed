// The sender over frames of the same symbols, each read to its end, at 48,000 or 24,000 samples a second. The checksum takes in how many samples each read wrote, and the last frame's samples.
use crate::sums;
use given_symbols::Traffic;
use modulator::{ModulatorFrame, SampleCount, SoftModulator};
use protocol::Refusal;

fn count_of(answer: Result<SampleCount, Refusal>) -> u64 {
    answer.map_or(0, |count| count.0 as u64)
}

pub(crate) fn frames(rate: u32, count: u32, symbols: [f32; 192]) -> u64 {
    let begun = SoftModulator::new(rate);
    let mut sender = begun.modulator;
    let mut room = [0i16; 1920];
    let mut sum: u64 = 0;
    for _ in 0..count {
        let provided = sender.provide_next_frame(
            ModulatorFrame::Symbols(Traffic::Ordinary),
            &symbols,
        );
        sender = provided.modulator;
        let read = sender.read_output_samples(&mut room);
        sender = read.modulator;
        let answer = read.answer;
        sum = sums::with(sum, count_of(answer));
    }
    sums::with_samples(sum, &room)
}
