// Quiet stretches: what many samples at once do to the control, where nothing refuses them and none brings an offer. The filtered values lie
// in a row, so that no ring is read here.
#![tactic(auto)]

ghost use Rattle.std.specs.Prelude.{◌≡◌, ◌≤◌};
ghost use Rattle.quiet.specs.Walk.{is_due_lem, goes_on_lem, WalkSays};
ghost use Rattle.quiet.specs.Parts.{Asked, Walks};

use search::{Control, LAST_COUNT, Waiting};

mod block;
mod count;
mod lanes;

// How many samples were quiet, and the control after them.
#[derive(Clone, Copy)]
pub struct Walked {
    pub fed: usize,
    pub control: Control,
}

fn is_due(wait: Option<Waiting>) -> bool
    ensures { result ≡ is_due_lem wait }
{
    wait.is_some_and(|w| w.left <= 1)
}

// Whether the next sample is quiet whatever it is, but for the values that its search reads.
#[tactic(auto, unfolding(crate::specs::Walk::goes_on_lem))]
pub(crate) fn goes_on(p: usize, control: Control) -> bool
    requires { p ≤ 10 }
    ensures { result ≡ goes_on_lem p control }
{
    search::control_fit(p as u8, control)
        & !control.owed
        & (control.sample < LAST_COUNT)
        & !is_due(control.wait)
}

// Some of the next samples, one at least: a wait is gone through in one, and else a block of 48 is searched.
fn walk_some(p: usize, row: &[f32], at: usize, left: usize, control: Control) -> Walked
    requires { Asked p row.now at left control }
    ensures { Walks p row.now at left control result }
{
    let countable = LAST_COUNT - control.sample;
    let most = countable.min(left as u64) as usize;
    match control.wait {
        None => block::walk_block(p, row, at, most.min(48), control),
        Some(w) => {
            let near = (w.left - 1) as usize;
            let n = near.min(most);
            Walked {
                fed: n,
                control: count::rest(control, w, n),
            }
        }
    }
}

// The first `count` samples of the row, p samples a symbol, until one would be refused or brings an offer. The values of seven symbols
// before the first sample come first in the row, and as many as a block has after the last sample's; if it is shorter, or a value is out of
// range, or a symbol has more samples than at any rate, no sample is taken.
pub fn walk(p: usize, row: &[f32], count: usize, control: Control) -> Walked
    ensures { WalkSays p row.now count control result }
{
    if 10 < p {
        return Walked { fed: 0, control };
    }
    let least = 7 * p + 48;
    if row.len() < least {
        return Walked { fed: 0, control };
    }
    if row.len() - least < count {
        return Walked { fed: 0, control };
    }
    let end = count + 7 * p;
    if !look::is_in_range(&row[..end]) {
        return Walked { fed: 0, control };
    }
    let mut now = control;
    let mut fed: usize = 0;
    // Each turn takes as many samples as it can, so no range gives the next one's place.
    while fed < count {
        if !goes_on(p, now) {
            return Walked { fed, control: now };
        }
        let left = count - fed;
        let walked = walk_some(p, row, fed, left, now);
        now = walked.control;
        fed += walked.fed;
    }
    Walked { fed, control: now }
}
