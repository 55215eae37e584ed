// What a line of words names, and what is after a name.
ghost use Rattle.std.specs.Prelude.{◌≡◌, is_some, IfSome};
ghost use Rattle.cases_text.specs.Places.{word_of};
ghost use Rattle.cases_text.specs.Behind.{behind_of, named, PlaceBehindSays, NamesSays, CountBehindSays, FloatBehindSays};

use crate::places::{find, next};
use crate::{decimal, float, word};

// The place after the last word that is the name, 0 where none is.
pub fn place_behind(words: &[u8], name: &[u8]) -> usize
    ensures { PlaceBehindSays words.now name.now result }
{
    let mut place: usize = 0;
    let mut at: usize = 0;
    let mut k: usize = 0;
    // A turn goes on by a word, whose length no range knows: an iterator of words beside `Lines` would be no plainer.
    while at < words.len() {
        let end = find(words, b' ', at);
        if &words[at..end] == name {
            place = k + 1;
        }
        at = next(words, end);
        k += 1;
    }
    place
}

pub fn names(words: &[u8], name: &[u8]) -> bool
    ensures { NamesSays words.now name.now result }
{
    0 < place_behind(words, name)
}

// The word after a name.
fn word_after<'a>(words: &'a [u8], name: &[u8]) -> Option<&'a [u8]>
    ensures found { is_some result ≡ named words.now name.now }
    ensures value { IfSome result (λ w. w.now ≡ word_of words.now (behind_of words.now name.now)) }
{
    let place = place_behind(words, name);
    if 0 < place {
        Some(word(words, place))
    } else {
        None
    }
}

// The number after a name, or the caller's own where no word is the name.
#[tactic(auto, unfolding(crate::specs::Behind::count_behind_lem))]
pub fn count_behind(words: &[u8], name: &[u8], own: u64) -> u64
    ensures { CountBehindSays words.now name.now own result }
{
    word_after(words, name).map_or(own, decimal)
}

#[tactic(auto, unfolding(crate::specs::Behind::float_behind_lem))]
pub fn float_behind(words: &[u8], name: &[u8], own: f32) -> f32
    ensures { FloatBehindSays words.now name.now own result }
{
    word_after(words, name).map_or(own, float)
}
