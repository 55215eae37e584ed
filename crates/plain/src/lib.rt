// Document 02 g): a second receiver, written from the rules. It lists the offers of a recording in memory, each filtered value worked out from the recording itself: no window, no ring, no
// cursor, and no record between calls.
#![tactic(auto)]

ghost use Rattle.std.specs.Prelude.{◌≡◌};
ghost use Rattle.plain.specs.Listing.{ListOffersSays};

use heard::Heard;
use protocol::Refusal;
use shaping::PerSymbol;

mod correlator;
mod due;
mod filter;
mod heard;
mod offers;
mod pursuit;

// So many samples are a recording.
const LONGEST: usize = 65_536;

// A reply is `true` for accepted. Offer i has five numbers from place 5i on, its kind by the order of trial, its sample, where it was taken, its age and its mark, and 192 symbols from place
// 192i on. What is past the list stays as it was. The answer is how many offers the list has: the last of them is unanswered exactly where there are more of them than replies.
pub fn list_offers(
    rate: u32,
    recording: &[i16],
    replies: &[bool],
    numbers: &mut [u64],
    symbols: &mut [f32],
) -> Result<usize, Refusal>
    ensures { ListOffersSays rate recording.now replies.now numbers.old symbols.old result numbers.new symbols.new }
{
    let Some(p) = PerSymbol::of(rate) else {
        return Err(Refusal::WrongRate);
    };
    if LONGEST < recording.len() {
        return Err(Refusal::RecordingTooLong);
    }
    numbers::all_sixteen(recording);
    if rate == 48_000 {
        let table = shaping::rrc_48k();
        let heard = Heard {
            p,
            table: &table,
            recording,
        };
        heard.list_at(replies, numbers, symbols)
    } else {
        let table = shaping::rrc_24k();
        let heard = Heard {
            p,
            table: &table,
            recording,
        };
        heard.list_at(replies, numbers, symbols)
    }
}
