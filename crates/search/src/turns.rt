// What a sample and a reply ask of the control alone: no ring is read here.
ghost use Rattle.std.specs.Prelude.{◌≡◌};
ghost use Rattle.search.specs.TakenBurst.{held_in};
ghost use Rattle.search.specs.Turn.{cleared, due_turn};
ghost use Rattle.search.specs.Promises.{TurnOfSays, RepliedSays};

use crate::{Candidate, Control, Reply, Shown, Turn, Waiting, bursts};

#[tactic(auto, unfolding(crate::specs::Turn::cleared))]
fn clear_timer(timer: Option<u64>, count: u64) -> Option<u64>
    ensures { result ≡ cleared count timer }
{
    match timer {
        Some(end) if end < count => None,
        _ => timer,
    }
}

// A frame is due: the candidate that awaited it is offered, whatever its kind.
#[tactic(auto, unfolding(crate::specs::Turn::due_turn))]
fn fall_due(candidate: Candidate, waited: Waiting, control: Control) -> Turn
    ensures { result ≡ due_turn (held_in candidate) waited control }
{
    match candidate {
        Candidate::Nothing => Turn::Look(control),
        Candidate::Held {
            kind,
            gain,
            shift,
            taken_at,
            ..
        } => Turn::Offer {
            shown: Shown {
                kind,
                gain,
                shift,
                taken_at,
                age: waited.age,
                replaced: waited.replaced,
            },
            control: Control {
                owed: true,
                ..control
            },
        },
    }
}

// The turn of the sample whose number is `sample`: the timer is cleared, and the wait, if one is held, comes nearer to its end.
#[tactic(auto, unfolding(crate::specs::Turn::waited_turn))]
pub fn turn_of(control: Control, sample: u64) -> Turn
    ensures { TurnOfSays control sample result }
{
    let counted = Control {
        dcd: clear_timer(control.dcd, sample),
        sample,
        ..control
    };
    match control.wait {
        None => Turn::Look(counted),
        Some(w) => {
            if 1 < w.left {
                return Turn::Rest(Control {
                    wait: Some(Waiting {
                        left: w.left - 1,
                        ..w
                    }),
                    ..counted
                });
            }
            let freed = Control {
                candidate: Candidate::Nothing,
                wait: None,
                ..counted
            };
            fall_due(control.candidate, w, freed)
        }
    }
}

// A reply ends the wait for it; a frame that is not accepted leaves the sample to the search.
#[tactic(auto, unfolding(crate::specs::Turn::replied))]
pub fn replied(p: u8, control: Control, reply: Reply, values: [f32; 8]) -> Control
    ensures { RepliedSays p control reply values result }
{
    let settled = Control {
        owed: false,
        ..control
    };
    match reply {
        Reply::Accepted => settled,
        Reply::Rejected => bursts::searched(p, settled, values),
    }
}
