// The last stretch of zeros that ends at or before a place.
ghost use Rattle.std.specs.Prelude.{◌≤◌, length};
ghost use Rattle.replay.specs.Pauses.{FirstSound, LastPause};

// The first sample of a part that is not 0, or the part's end.
fn find_sound(samples: &[i16], from: usize, end: usize) -> usize
    requires { (from ≤ end) × (end ≤ length samples.now) }
    ensures { FirstSound samples.now from end result }
{
    match samples[from..end].iter().position(|sample| *sample != 0) {
        Some(zeros) => from + zeros,
        None => end,
    }
}

// How many samples there are up to the end of the last stretch of `span` zeros, of those that end with `most` samples or fewer; 0 where
// there is none. A sample that is not 0 rules out each stretch that it is in. The lowest place of a stretch is looked at first: in sound
// one sample of `span` is looked at, and none is looked at more than twice.
pub(crate) fn find_pause(samples: &[i16], span: usize, most: usize) -> usize
    requires { (1 ≤ span) × (most ≤ length samples.now) }
    ensures { LastPause span samples.now most result }
{
    let mut end = most;
    // A turn goes back to the sample that it found, so no range gives the next end.
    while span <= end {
        let from = end - span;
        let at = find_sound(samples, from, end);
        if at == end {
            return end;
        }
        end = at;
    }
    0
}
