// A replay opened in the middle of a recording: the first offer from a sample on, without hearing all that came before.
#![tactic(auto)]

ghost use Rattle.std.specs.Prelude.{◌≡◌, ◌++◌, ◌+◌, ◌≤◌, ◌<◌, ◌^◌, length, drop};
ghost use Rattle.silence.specs.Later.{later_offer};
ghost use Rattle.replay.specs.Open.{OpenSays};

use demodulator::Offer;
use protocol::Refusal;

mod part;
mod pause;

// The pause that clears the receiver, for each sample in a symbol: 4,000 zeros at 48 kHz, 2,000 at 24 kHz.
const PAUSE: usize = 400;

fn write_window(window: [f32; 192], room: &mut [f32])
    requires { 192 ≤ length room.old }
    ensures { room.new ≡ window ++ drop 192 room.old }
{
    room[..192].copy_from_slice(&window);
}

// An offer of the part that begins after `start` samples, numbered in the recording.
fn number_in_whole(offer: Offer, start: usize) -> Offer
    requires { (offer.sample + start < 2 ^ 64) × (offer.taken_at + start < 2 ^ 64) }
    ensures { result ≡ later_offer start offer }
{
    let sample = offer.sample + start as u64;
    let taken_at = offer.taken_at + start as u64;
    let kind = offer.kind;
    Offer {
        kind,
        sample,
        taken_at,
        age: offer.age,
        replaced: offer.replaced,
        gain: offer.gain,
    }
}

// The first offer due at sample `sample` of the recording or after it. A fresh receiver hears the part after the last pause that ends before that
// sample, and is answered by the receive program's rule. None: no offer is due from the sample on. An offer is numbered in the recording, and its
// symbols are in the caller's room.
pub fn open(
    rate: u32,
    recording: &[i16],
    sample: u64,
    room: &mut [f32],
) -> Result<Option<Offer>, Refusal>
    ensures { OpenSays rate recording.now sample room.old result room.new }
{
    if !shaping::is_rate(rate) {
        return Err(Refusal::WrongRate);
    }
    if room.len() < 192 {
        return Err(Refusal::RoomTooSmall);
    }
    // No slice is so long; the document has the refusal.
    if 9223372036854775808 < recording.len() {
        return Err(Refusal::CountAtItsEnd);
    }
    if sample == 0 {
        return Err(Refusal::NoSuchSample);
    }
    if (recording.len() as u64) < sample {
        return Err(Refusal::NoSuchSample);
    }
    numbers::all_sixteen(recording);
    let before = sample as usize - 1;
    let span = PAUSE * shaping::samples_in(rate);
    let start = pause::find_pause(recording, span, before);
    let asked = sample - start as u64;
    let first = part::find_offer(rate, &recording[start..], asked);
    let Some(offer) = first.found else {
        return Ok(None);
    };
    write_window(first.window, room);
    Ok(Some(number_in_whole(offer, start)))
}
