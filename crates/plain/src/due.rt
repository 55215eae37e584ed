// The next frame that falls due. Once a wait is set nothing is searched until it ends, so the due sample is known at once, and the wait is not counted down.
ghost use Rattle.std.specs.Prelude.{◌≡◌, ◌≤◌};
ghost use Rattle.search.specs.TakenBurst.{held_in};
ghost use Rattle.plain.specs.Rest.{due_at, due_of, Finds};

use crate::heard::Heard;
use search::{Candidate, Shown, Waiting};

// A frame that falls due: what its offer shows, and the sample.
#[derive(Clone, Copy)]
pub(crate) struct Due {
    pub shown: Shown,
    pub sample: usize,
}

// The sample at which a wait ends that is set at sample k: the next one at the soonest.
fn due_sample(k: usize, left: u16) -> usize
    requires { k ≤ 65536 }
    ensures { result ≡ due_at k left }
{
    let whole = left as usize;
    if whole < 2 { k + 1 } else { k + whole }
}

// The frame of the candidate whose wait was set at sample k, if the recording goes on to it.
fn due_after(k: usize, end: usize, wait: Waiting, candidate: Candidate) -> Option<Due>
    requires { k ≤ 65536 }
    ensures { result ≡ due_of k end wait (held_in candidate) }
{
    let sample = due_sample(k, wait.left);
    match candidate {
        Candidate::Nothing => None,
        Candidate::Held {
            kind,
            age: _,
            diff: _,
            gain,
            shift,
            taken_at,
        } => {
            if end < sample {
                return None;
            }
            Some(Due {
                shown: Shown {
                    kind,
                    gain,
                    shift,
                    taken_at,
                    age: wait.age,
                    replaced: wait.replaced,
                },
                sample,
            })
        }
    }
}

impl Heard<'_> {
    // The first frame that falls due if sample `from` is searched with nothing held, and then those after it.
    pub(crate) fn next_due(&self, from: usize) -> Option<Due>
        ensures { Finds self.now.table.now self.now.p self.now.recording.now from result }
    {
        let end = self.recording.len();
        let mut candidate = Candidate::Nothing;
        for k in from..=end {
            let pursuit = self.search_at(k, candidate);
            candidate = pursuit.candidate;
            let wait = pursuit.wait;
            if let Some(waiting) = wait {
                return due_after(k, end, waiting, candidate);
            }
        }
        None
    }
}
