// The search's second part: what eight values make of the candidate and of the wait. Its first part sets the carrier timer, on which no offer depends.
ghost use Rattle.std.specs.Prelude.{◌≡◌, ◌*◌, ◌-◌, ◌≤◌, length};
ghost use Rattle.decode.specs.Parts.{values_of};
ghost use Rattle.search.specs.TakenBurst.{held_in, taken, older};
ghost use Rattle.search.specs.Search.{rank, matched, missed, tried};
ghost use Rattle.plain.specs.SearchPart.{idle_timer, control_of, seen, takes, searched_at};

use crate::correlator;
use crate::heard::Heard;
use decode::Correlation;
use protocol::Kind;
use search::{Candidate, Waiting};
use shaping::PerSymbol;

// The candidate, and the wait for its frame once that is set.
#[derive(Clone, Copy)]
pub(crate) struct Pursuit {
    pub candidate: Candidate,
    pub wait: Option<Waiting>,
}

// A kind's place in the order of trial.
pub(crate) fn place_of(kind: Kind) -> u64
    ensures { result ≡ rank kind }
{
    kind as u64
}

// Takes a new candidate at sample k. A wait that is held stays, marked.
fn take(k: usize, wait: Option<Waiting>, kind: Kind, m: Correlation) -> Pursuit
    ensures { result ≡ takes k wait kind m }
{
    let candidate = Candidate::Held {
        kind,
        age: 1,
        diff: m.diff,
        gain: m.gain,
        shift: m.shift,
        taken_at: k as u64,
    };
    match wait {
        None => Pursuit { candidate, wait },
        Some(w) => Pursuit {
            candidate,
            wait: Some(Waiting {
                left: w.left,
                age: w.age,
                replaced: true,
            }),
        },
    }
}

// One more, up to what a byte holds.
fn older(age: u8) -> u8
    ensures { result ≡ older age }
{
    age.saturating_add(1)
}

// A match whose diff is above the held candidate's adds one to its age; any other takes a new candidate.
fn meet(k: usize, pursuit: Pursuit, kind: Kind, m: Correlation) -> Pursuit
    ensures { result ≡ seen (matched (held_in pursuit.candidate) (taken kind m k) (control_of pursuit k idle_timer)) }
{
    let candidate = pursuit.candidate;
    let wait = pursuit.wait;
    match candidate {
        Candidate::Nothing => take(k, wait, kind, m),
        Candidate::Held {
            kind: held,
            age,
            diff,
            gain,
            shift,
            taken_at,
        } => {
            if m.diff > diff {
                let grown = older(age);
                return Pursuit {
                    candidate: Candidate::Held {
                        kind: held,
                        age: grown,
                        diff,
                        gain,
                        shift,
                        taken_at,
                    },
                    wait,
                };
            }
            take(k, wait, kind, m)
        }
    }
}

// The samples that are left to a frame of 184 symbols after its burst: none where the age has passed them.
fn rest_of(p: PerSymbol, age: u8) -> u16
    ensures { result ≡ 184 * p - age }
{
    numbers::saturating_sub(184 * p.samples(), age as usize) as u16
}

// A kind that does not match, and is the held candidate's, sets the wait.
fn miss(p: PerSymbol, k: usize, pursuit: Pursuit, kind: Kind) -> Pursuit
    ensures { result ≡ seen (missed p kind (held_in pursuit.candidate) (control_of pursuit k idle_timer)) }
{
    let candidate = pursuit.candidate;
    if let Candidate::Held {
        kind: held,
        age,
        diff: _,
        gain: _,
        shift: _,
        taken_at: _,
    } = candidate
    {
        if place_of(held) == place_of(kind) {
            let left = rest_of(p, age);
            return Pursuit {
                candidate,
                wait: Some(Waiting {
                    left,
                    age,
                    replaced: false,
                }),
            };
        }
    }
    pursuit
}

// A diff below 100.0 is a match.
fn try_kind(p: PerSymbol, k: usize, pursuit: Pursuit, kind: Kind, values: [f32; 8]) -> Pursuit
    ensures { result ≡ seen (tried p (values_of values) kind (control_of pursuit k idle_timer)) }
{
    let m = correlator::correlate(kind, values);
    if m.diff < 100.0 {
        return meet(k, pursuit, kind, m);
    }
    miss(p, k, pursuit, kind)
}

impl Heard<'_> {
    // Searches sample k, with no wait held.
    pub(crate) fn search_at(&self, k: usize, candidate: Candidate) -> Pursuit
        requires { k ≤ length self.now.recording.now }
        ensures { result ≡ searched_at self.now.table.now self.now.p self.now.recording.now k candidate }
    {
        let values = self.eight_values(k);
        let begun = Pursuit {
            candidate,
            wait: None,
        };
        let after_lsf = try_kind(self.p, k, begun, Kind::Lsf, values);
        let after_bert = try_kind(self.p, k, after_lsf, Kind::Bert, values);
        let after_stream = try_kind(self.p, k, after_bert, Kind::Stream, values);
        try_kind(self.p, k, after_stream, Kind::Packet, values)
    }
}
