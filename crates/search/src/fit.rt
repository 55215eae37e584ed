// Whether a control is fit: no phrase of 'Unfit receiver' applies to it. Tests are joined by `&`: none depends on another.
ghost use Rattle.std.specs.Prelude.{◌≡◌};
ghost use Rattle.search.specs.Fit.{timer_fit_lem, candidate_fit_lem, wait_fit_lem, taken_fit_lem, kept_fit_lem};
ghost use Rattle.search.specs.Promises.{ControlFitSays, IsHeldSays};

use crate::{Candidate, Control, FRAME_CARRIER, FRAME_REST, LAST_COUNT, Waiting};

// The timer's latest end is a frame's, set at the largest count.
fn timer_fit(p: u8, timer: Option<u64>) -> bool
    ensures { result ≡ timer_fit_lem p timer }
{
    match timer {
        None => true,
        Some(end) => end <= LAST_COUNT + FRAME_CARRIER * (p as u64),
    }
}

#[tactic(auto, unfolding(crate::specs::Fit::candidate_fit_lem))]
fn candidate_fit(candidate: Candidate) -> bool
    ensures { result ≡ candidate_fit_lem candidate }
{
    match candidate {
        Candidate::Nothing => true,
        Candidate::Held {
            age,
            diff,
            gain,
            shift,
            ..
        } => {
            let age_fit = (1 <= age) & (age <= 254);
            let diff_fit = (0.0 <= diff) & (diff < 100.0);
            let gain_fit = (16.0 <= gain) & (gain <= 1000000.0);
            age_fit & diff_fit & gain_fit & decode::in_range(shift)
        }
    }
}

pub fn is_held(candidate: Candidate) -> bool
    ensures { IsHeldSays candidate result }
{
    matches!(candidate, Candidate::Held { .. })
}

#[tactic(auto, unfolding(crate::specs::Fit::wait_fit_lem))]
fn wait_fit(p: u8, wait: Option<Waiting>, candidate: Candidate, owed: bool) -> bool
    ensures { result ≡ wait_fit_lem p wait candidate owed }
{
    match wait {
        None => true,
        Some(w) => {
            let whole = FRAME_REST * (p as u16);
            (1 <= w.left) & (w.left < whole) & is_held(candidate) & !owed
        }
    }
}

fn taken_fit(candidate: Candidate, count: u64) -> bool
    ensures { result ≡ taken_fit_lem count candidate }
{
    match candidate {
        Candidate::Nothing => true,
        Candidate::Held { taken_at, .. } => (1 <= taken_at) & (taken_at <= count),
    }
}

fn kept_fit(wait: Option<Waiting>) -> bool
    ensures { result ≡ kept_fit_lem wait }
{
    wait.is_none_or(|w| 1 <= w.age)
}

// At p samples a symbol.
#[tactic(auto, unfolding(crate::specs::Fit::control_fit_lem))]
pub fn control_fit(p: u8, control: Control) -> bool
    ensures { ControlFitSays p control result }
{
    (control.sample <= LAST_COUNT)
        & timer_fit(p, control.dcd)
        & candidate_fit(control.candidate)
        & wait_fit(p, control.wait, control.candidate, control.owed)
        & !(control.owed & is_held(control.candidate))
        & taken_fit(control.candidate, control.sample)
        & kept_fit(control.wait)
}
