// What tools/speed measures. A request on standard input is a letter, a number in four bytes, the low one first, and data: `d` and `f` are
// followed by so many samples, two bytes each, which are heard by a call for each or in stretches, `l` by as many for the slow engine to
// list, and `o` by a recording of so many, opened at its last; `s` by a line of the house format, whose symbols are sent as so many frames;
// `c` by so many samples, to be checked, and a line that each of their frames has. `D`, `F`, `L`, `O` and `S` are the same for 24 kHz. When
// all of it is read, one byte is written, and after one byte more of input the job is done and its checksum written, eight bytes, the low
// one first. So whoever asks can time the job alone, and hold the checksum to the Rust's; that of `c` is
// whether the checker says yes. The end of the input ends it, and so does a request that is none.
#![tactic(auto)]

ghost use Rattle.std.specs.Prelude.{◌≤◌, length};

use std::io::{Read, Write};

mod checker;
mod listing;
mod reading;
mod receiver;
mod replayed;
mod sender;
mod sums;

// Says that the request is read, and waits for the word to begin.
fn begin(input: &mut impl Read, out: &mut impl Write) -> bool {
    let mut word = [0u8; 1];
    if out.write_all(b"!").is_err() {
        return false;
    }
    input.read_exact(&mut word).is_ok()
}

fn tell(out: &mut impl Write, sum: u64) -> bool {
    out.write_all(&sum.to_le_bytes()).is_ok()
}

#[derive(Clone, Copy)]
enum Way {
    Singly,
    InStretches,
    Listed,
    Opened,
}

fn hear_into(
    input: &mut impl Read,
    out: &mut impl Write,
    rate: u32,
    way: Way,
    samples: &mut [i16],
) -> bool
    requires { length samples.old ≤ 192000 }
{
    if !reading::read_samples(input, samples) {
        return false;
    }
    if !begin(input, out) {
        return false;
    }
    match way {
        Way::Singly => tell(out, receiver::by_sample(rate, samples)),
        Way::InStretches => tell(out, receiver::by_stretch(rate, samples)),
        Way::Listed => tell(out, listing::of_recording(rate, samples)),
        Way::Opened => tell(out, replayed::at_its_last(rate, samples)),
    }
}

fn hear(input: &mut impl Read, out: &mut impl Write, rate: u32, way: Way, count: usize) -> bool {
    let mut room = reading::sample_room();
    if room.len() < count {
        return false;
    }
    hear_into(input, out, rate, way, &mut room[..count])
}

fn send(input: &mut impl Read, out: &mut impl Write, rate: u32, frames: u32) -> bool {
    let mut line = [0u8; 97];
    if input.read_exact(&mut line).is_err() {
        return false;
    }
    let symbols = house::line_symbols(line).unwrap_or([0.0; 192]);
    if !begin(input, out) {
        return false;
    }
    tell(out, sender::frames(rate, frames, symbols))
}

fn check_into(input: &mut impl Read, out: &mut impl Write, samples: &mut [i16]) -> bool
    requires { length samples.old ≤ 192000 }
{
    let mut line = [0u8; 97];
    let mut text = checker::text_room();
    if !reading::read_samples(input, samples) {
        return false;
    }
    if input.read_exact(&mut line).is_err() {
        return false;
    }
    checker::put_lines(&mut text, line);
    if !begin(input, out) {
        return false;
    }
    tell(out, checker::is_sent(&text, samples))
}

fn check(input: &mut impl Read, out: &mut impl Write, count: usize) -> bool {
    let mut room = reading::sample_room();
    if room.len() < count {
        return false;
    }
    check_into(input, out, &mut room[..count])
}

// Whether to go on.
fn answer(input: &mut impl Read, out: &mut impl Write) -> bool {
    let mut header = [0u8; 5];
    if input.read_exact(&mut header).is_err() {
        return false;
    }
    let count = u32::from_le_bytes([header[1], header[2], header[3], header[4]]);
    match header[0] {
        b'd' => hear(input, out, 48_000, Way::Singly, count as usize),
        b'f' => hear(input, out, 48_000, Way::InStretches, count as usize),
        b'l' => hear(input, out, 48_000, Way::Listed, count as usize),
        b'o' => hear(input, out, 48_000, Way::Opened, count as usize),
        b's' => send(input, out, 48_000, count),
        b'c' => check(input, out, count as usize),
        b'D' => hear(input, out, 24_000, Way::Singly, count as usize),
        b'F' => hear(input, out, 24_000, Way::InStretches, count as usize),
        b'L' => hear(input, out, 24_000, Way::Listed, count as usize),
        b'O' => hear(input, out, 24_000, Way::Opened, count as usize),
        b'S' => send(input, out, 24_000, count),
        _ => false,
    }
}

// A proved loop has to end, and nothing says that the input does: the turns are counted, to a number that no run comes to.
fn main(rt: HostRuntime) {
    let mut input = rt.stdin();
    let mut out = rt.stdout();
    for _ in 0..u64::MAX {
        if !answer(&mut input, &mut out) {
            break;
        }
    }
}
