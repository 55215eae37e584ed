// The padding and a part of the transmission beside the stretch, sample by sample.
ghost use Rattle.std.specs.Prelude.{◌≡◌, ◌+◌, ◌≤◌, pos, length, take, drop, replicate};
ghost use Rattle.supplier.specs.Check.{checked_paper};
ghost use Rattle.supplier.specs.Parts.{front, is_yes};

use super::Checked;

#[tactic(auto, unfolding(crate::specs::Parts::is_yes))]
pub(crate) fn is_yes(verdict: Checked) -> bool
    ensures { result ≡ is_yes (checked_paper verdict) }
{
    matches!(verdict, Checked::Yes)
}

// The zeros of the padding, with which the stretch begins.
pub(crate) fn meet_padding(padding: usize, samples: &[i16]) -> Checked
    ensures { checked_paper result ≡ front 1 (replicate padding (pos 0)) samples.now }
{
    let begun = &samples[..padding.min(samples.len())];
    for (met, sample) in begun.iter().enumerate() {
        if *sample != 0 {
            return Checked::Differs(met + 1);
        }
    }
    if samples.len() < padding {
        return Checked::Short;
    }
    Checked::Yes
}

// The first `count` samples of a part.
pub(crate) fn meet_part(made: &[i16], count: usize, samples: &[i16], at: usize) -> Checked
    requires { (count ≤ length made.now) × (at ≤ length samples.now) }
    ensures { checked_paper result ≡ front (at + 1) (take count made.now) (drop at samples.now) }
{
    for (i, own) in made[..count].iter().enumerate() {
        let place = at + i;
        let Some(sample) = samples.get(place) else {
            return Checked::Short;
        };
        if *sample != *own {
            let number = place + 1;
            return Checked::Differs(number);
        }
    }
    Checked::Yes
}
