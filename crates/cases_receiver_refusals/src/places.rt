// A call's answer on the record that a line makes up, and in how many places of the ring its value brings the same.
use crate::answer::Answer;
use crate::{answer, calls, layout, made};
use std::io::{self, Write};

// In how many of so many places, a symbol apart, back from the first, the value in that place only brings this answer.
fn alike(answer: Answer, words: &[u8], call: &[u8], from: usize, places: u64) -> u64 {
    let p = layout::samples_in(made::rate(words));
    let mut place = from;
    let mut alike: u64 = 0;
    for _ in 0..places {
        let same = calls::called(words, call, place) == answer;
        alike = alike.wrapping_add(same as u64);
        place = layout::symbol_before(p, place % 1920);
    }
    alike
}

pub(crate) fn put_answer(out: &mut impl Write, words: &[u8], call: &[u8]) -> io::Result<()> {
    let from = cases_text::count_behind(words, b"from", 0) as usize;
    let places = cases_text::count_behind(words, b"places", 0);
    let answer = calls::called(words, call, from);
    answer::put(out, answer)?;
    if 0 < places {
        answer::put_text(out, answer::IN)?;
        cases_text::put_count(out, alike(answer, words, call, from, places))?;
        answer::put_text(out, answer::PLACES)?;
    }
    Ok(())
}
