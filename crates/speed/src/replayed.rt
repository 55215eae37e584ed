// A replay that is opened at a recording's last sample. The checksum takes in the offer's sample number and symbols.
use crate::receiver::offered_at;
use crate::sums;

pub(crate) fn at_its_last(rate: u32, samples: &[i16]) -> u64 {
    let mut room = [0.0f32; 192];
    let opened = replay::open(rate, samples, samples.len() as u64, &mut room);
    sums::with_floats(sums::with(0, offered_at(opened)), &room)
}
