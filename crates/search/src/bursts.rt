// The search: what eight filtered values do to the control. Their zeros lose their sign once, their spread is taken once, and each of the six bursts is compared once.
ghost use Rattle.std.specs.Prelude.{◌≡◌, ◌*◌, ◌-◌};
ghost use Rattle.std.specs.Float.Ieee.{lt};
ghost use Rattle.decode.specs.Correlator.{threshold};
ghost use Rattle.search.specs.TakenBurst.{held_in, held_by, taken, older};
ghost use Rattle.search.specs.Search.{end_after_lem, marked, matched, missed};
ghost use Rattle.search.specs.Parts.{Carries, Tries};
ghost use Rattle.search.specs.Promises.{SearchedSays};

use crate::{Candidate, Control, FRAME_CARRIER, FRAME_REST, Waiting, fit};
use decode::{Correlation, SYNC_MIN_GAIN};
use protocol::{Kind, SyncBurst};

// A diff below it is a match.
const SYNC_THRESHOLD: f32 = 100.0;

// How long the carrier is taken to last after a preamble or an end of transmission, in symbols.
const BURST_CARRIER: u64 = 24;

fn is_match(m: Correlation) -> bool
    ensures { result ≡ lt m.diff threshold }
{
    m.diff < SYNC_THRESHOLD
}

// The first part's turn of one burst: a match sets the timer, even to a sooner end.
fn set_timer(p: u8, control: Control, m: Correlation) -> Control
    ensures { Carries p m control result }
{
    if is_match(m) {
        let span = BURST_CARRIER * (p as u64);
        let end = control.sample.saturating_add(span);
        return Control {
            dcd: Some(end),
            ..control
        };
    }
    control
}

// A candidate is taken while a wait is held: the wait is marked.
#[tactic(auto, unfolding(crate::specs::Search::marked))]
fn mark_wait(wait: Option<Waiting>) -> Option<Waiting>
    ensures { result ≡ marked wait }
{
    wait.map(|w| Waiting {
        replaced: true,
        ..w
    })
}

// A match: the held candidate is a sample older, or a new one is taken.
#[tactic(auto, unfolding(crate::specs::Search::matched))]
fn age_or_take(control: Control, kind: Kind, m: Correlation) -> Control
    ensures { result ≡ matched (held_by control) (taken kind m control.sample) control }
{
    if let Candidate::Held {
        kind: k,
        age,
        diff,
        gain,
        shift,
        taken_at,
    } = control.candidate
    {
        if diff < m.diff {
            return Control {
                candidate: Candidate::Held {
                    kind: k,
                    age: age.saturating_add(1),
                    diff,
                    gain,
                    shift,
                    taken_at,
                },
                ..control
            };
        }
    }
    Control {
        candidate: Candidate::Held {
            kind,
            age: 1,
            diff: m.diff,
            gain: m.gain,
            shift: m.shift,
            taken_at: control.sample,
        },
        wait: mark_wait(control.wait),
        ..control
    }
}

// The samples from such an age to the frame: none where the age has passed them, which no age of a byte does at 10 samples a symbol or at 5.
fn rest_after(p: u8, age: u8) -> u16
    ensures { result ≡ 184 * p - age }
{
    let whole = FRAME_REST * (p as u16);
    let passed = age as u16;
    if passed < whole { whole - passed } else { 0 }
}

// No match: where the held candidate is of the kind, its frame is awaited.
#[tactic(auto, unfolding(crate::specs::Search::missed))]
fn await_frame(p: u8, kind: Kind, control: Control) -> Control
    ensures { result ≡ missed p kind (held_in control.candidate) control }
{
    if let Candidate::Held { kind: k, age, .. } = control.candidate {
        if k == kind {
            let left = rest_after(p, age);
            let span = FRAME_CARRIER * (p as u64);
            let end = control.sample.saturating_add(span);
            return Control {
                wait: Some(Waiting {
                    left,
                    age,
                    replaced: false,
                }),
                dcd: Some(end),
                ..control
            };
        }
    }
    control
}

// The second part's turn of one kind.
fn try_kind(p: u8, control: Control, kind: Kind, m: Correlation) -> Control
    ensures { Tries p kind m control result }
{
    if is_match(m) {
        return age_or_take(control, kind, m);
    }
    await_frame(p, kind, control)
}

// At p samples a symbol. With nothing held, a gain that matches no burst leaves the control at once, and so do six bursts of which none matches: most searches end there.
pub fn searched(p: u8, control: Control, values: [f32; 8]) -> Control
    ensures { SearchedSays p control values result }
{
    let unsigned = decode::unsign_zeros(values);
    let spread = decode::spread_of(unsigned);
    let free = !fit::is_held(control.candidate);
    if free & (spread.gain < SYNC_MIN_GAIN) {
        return control;
    }
    let preamble = decode::compare(SyncBurst::Preamble, unsigned, spread);
    let end = decode::compare(SyncBurst::EndOfTransmission, unsigned, spread);
    let lsf = decode::compare(SyncBurst::Frame(Kind::Lsf), unsigned, spread);
    let bert = decode::compare(SyncBurst::Frame(Kind::Bert), unsigned, spread);
    let stream = decode::compare(SyncBurst::Frame(Kind::Stream), unsigned, spread);
    let packet = decode::compare(SyncBurst::Frame(Kind::Packet), unsigned, spread);
    let matched = is_match(preamble)
        | is_match(end)
        | is_match(lsf)
        | is_match(bert)
        | is_match(stream)
        | is_match(packet);
    if free & !matched {
        return control;
    }
    let after_preamble = set_timer(p, control, preamble);
    let after_end = set_timer(p, after_preamble, end);
    let after_lsf = try_kind(p, after_end, Kind::Lsf, lsf);
    let after_bert = try_kind(p, after_lsf, Kind::Bert, bert);
    let after_stream = try_kind(p, after_bert, Kind::Stream, stream);
    try_kind(p, after_stream, Kind::Packet, packet)
}
