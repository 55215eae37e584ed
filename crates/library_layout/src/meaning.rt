// What the numbers mean.
ghost use Rattle.std.specs.Prelude.{◌≡◌};
ghost use Rattle.library_layout.specs.Layout.{kind_at, candidate_in, wait_in, timer_in};

use protocol::Kind;
use search::{Candidate, Waiting};

fn read_kind(number: u64) -> Kind
    ensures { result ≡ kind_at number }
{
    if number == 1 {
        Kind::Lsf
    } else if number == 2 {
        Kind::Bert
    } else if number == 3 {
        Kind::Stream
    } else {
        Kind::Packet
    }
}

pub fn read_candidate(numbers: &[u64; 14], levels: &[f32; 3]) -> Candidate
    ensures { result ≡ candidate_in numbers.now levels.now }
{
    if numbers[4] == 0 {
        return Candidate::Nothing;
    }
    let kind = read_kind(numbers[4]);
    let age = (numbers[5] % 256) as u8;
    Candidate::Held {
        kind,
        age,
        diff: levels[0],
        gain: levels[1],
        shift: levels[2],
        taken_at: numbers[6],
    }
}

pub fn read_wait(numbers: &[u64; 14]) -> Option<Waiting>
    ensures { result ≡ wait_in numbers.now }
{
    if numbers[7] == 0 {
        return None;
    }
    let left = (numbers[8] % 65536) as u16;
    let age = (numbers[9] % 256) as u8;
    let replaced = numbers[10] == 1;
    Some(Waiting {
        left,
        age,
        replaced,
    })
}

pub fn read_timer(numbers: &[u64; 14]) -> Option<u64>
    ensures { result ≡ timer_in numbers.now }
{
    if numbers[11] == 0 {
        return None;
    }
    Some(numbers[12])
}
