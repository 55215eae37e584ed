// What an offer adds to the figures: one at its kind, one at its reply, one at its age, and its gain.
ghost use Rattle.std.specs.Prelude.{◌≡◌, [], ◌∷◌};
ghost use Rattle.search.specs.Search.{rank};
ghost use Rattle.figures.specs.Totals.{no_figures_lem};
ghost use Rattle.figures.specs.FullList.{reply_place, after};
ghost use Rattle.figures.specs.Turn.{listed_as, offered_figures};

use super::Figures;
use super::sums::no_figures;
use demodulator::{Offer, Reply};
use protocol::{Kind, Refusal};

fn place_kind(kind: Kind) -> usize
    ensures { result ≡ rank kind }
{
    kind as usize
}

fn place_reply(reply: Reply) -> usize
    ensures { result ≡ reply_place reply }
{
    match reply {
        Reply::Accepted => 4,
        Reply::Rejected => 8,
    }
}

fn count_offer(offer: Offer, reply: Reply) -> Figures
    ensures { result ≡ after no_figures_lem (listed_as offer reply ∷ []) 0 }
{
    let kind = offer.kind;
    let place = place_kind(kind);
    let first = place_reply(reply);
    let settled = first + place;
    let mut totals = [0u64; 24];
    totals[place] = 1;
    totals[settled] = 1;
    let age = offer.age as usize;
    if (1 <= age) & (age <= 11) {
        let at = 11 + age;
        totals[at] = 1;
    }
    Figures {
        totals,
        smallest: Some(offer.gain),
        largest: Some(offer.gain),
    }
}

// An answer with the reply that it was given: one offer's figures, or none.
#[tactic(auto, unfolding(crate::specs::Turn::offered_figures))]
pub(crate) fn count_answer(
    answer: Result<Option<Offer>, Refusal>,
    settled: Option<Reply>,
) -> Figures
    ensures { result ≡ offered_figures answer settled }
{
    match (answer, settled) {
        (Ok(Some(offer)), Some(reply)) => count_offer(offer, reply),
        _ => no_figures(),
    }
}
