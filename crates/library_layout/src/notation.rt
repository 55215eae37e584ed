// The numbers of a candidate, a wait and a carrier timer: all 0 where none is held.
ghost use Rattle.std.specs.Prelude.{◌≡◌};
ghost use Rattle.library_layout.specs.Layout.{candidate_numbers, wait_numbers, timer_numbers};

use search::{Candidate, Waiting};

#[derive(Clone, Copy)]
pub struct CandidateNumbers {
    pub kind: u64,
    pub age: u64,
    pub taken_at: u64,
    pub levels: [f32; 3],
}

#[derive(Clone, Copy)]
pub struct WaitNumbers {
    pub held: u64,
    pub left: u64,
    pub age: u64,
    pub mark: u64,
}

#[derive(Clone, Copy)]
pub struct TimerNumbers {
    pub held: u64,
    pub end: u64,
}

pub fn number_candidate(candidate: Candidate) -> CandidateNumbers
    ensures { result ≡ candidate_numbers candidate }
{
    match candidate {
        Candidate::Nothing => CandidateNumbers {
            kind: 0,
            age: 0,
            taken_at: 0,
            levels: [0.0, 0.0, 0.0],
        },
        Candidate::Held {
            kind,
            age,
            diff,
            gain,
            shift,
            taken_at,
        } => {
            let code = library_codes::kind_code(kind);
            CandidateNumbers {
                kind: code as u64,
                age: age as u64,
                taken_at,
                levels: [diff, gain, shift],
            }
        }
    }
}

pub fn number_wait(wait: Option<Waiting>) -> WaitNumbers
    ensures { result ≡ wait_numbers wait }
{
    match wait {
        None => WaitNumbers {
            held: 0,
            left: 0,
            age: 0,
            mark: 0,
        },
        Some(waiting) => {
            let mark = library_codes::flag_of(waiting.replaced);
            WaitNumbers {
                held: 1,
                left: waiting.left as u64,
                age: waiting.age as u64,
                mark,
            }
        }
    }
}

pub fn number_timer(timer: Option<u64>) -> TimerNumbers
    ensures { result ≡ timer_numbers timer }
{
    match timer {
        None => TimerNumbers { held: 0, end: 0 },
        Some(end) => TimerNumbers { held: 1, end },
    }
}
