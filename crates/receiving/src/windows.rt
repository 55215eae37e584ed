// Samples in, lines out: each offer is answered by the accept rule before the next sample.
ghost use Rattle.std.specs.Prelude.{◌≡◌, ◌++◌, ◌≤◌, length, drop};
ghost use Rattle.house.specs.Line.{line_of};
ghost use Rattle.demodulator.specs.Calls.{heard_paper};
ghost use Rattle.receiving.specs.Hear.{receipt_paper};
ghost use Rattle.receiving.specs.Parts.{refused_after, is_accepted_lem, PutsLine, Roomy, HearsStretch, HearsAll};

use demodulator::{Offer, Reply, SoftDemodulator};
use protocol::Refusal;

// A line and its line feed.
pub(crate) const LINE: usize = 97;

// What comes of samples, of which `fed` went in: of a stretch, the last of which may bring an offer, or of all that a call gives.
#[derive(Clone, Copy)]
pub(crate) struct Heard<A> {
    pub answer: A,
    pub fed: usize,
    pub written: usize,
    pub demodulator: SoftDemodulator,
}

// Once samples went in, a refusal is left to the call that gives the rest.
fn give_receipt(answer: Result<Option<Offer>, Refusal>, fed: usize) -> Result<(), Refusal>
    ensures { receipt_paper result ≡ refused_after fed (heard_paper answer) }
{
    match answer {
        Err(why) if fed == 0 => Err(why),
        _ => Ok(()),
    }
}

fn is_accepted(settled: Option<Reply>) -> bool
    ensures { result ≡ is_accepted_lem settled }
{
    matches!(settled, Some(Reply::Accepted))
}

fn put_line(window: [f32; 192], room: &mut [u8])
    requires { 97 ≤ length room.old }
    ensures { room.new ≡ line_of window ++ drop 97 room.old }
{
    let line = house::symbols_line(window);
    room[..LINE].copy_from_slice(&line);
}

// The line of a window that was accepted, and how many places it takes.
fn put_settled(settled: Option<Reply>, window: [f32; 192], room: &mut [u8]) -> usize
    requires { 97 ≤ length room.old }
    ensures { PutsLine settled window room.old result room.new }
{
    if is_accepted(settled) {
        put_line(window, room);
        return LINE;
    }
    0
}

// The samples up to the first offer, which is settled, or up to one that would be refused.
fn hear_stretch(
    demodulator: SoftDemodulator,
    samples: &[i16],
    room: &mut [u8],
) -> Heard<Result<Option<Offer>, Refusal>>
    requires { 97 ≤ length room.old }
    ensures { HearsStretch demodulator samples.now room.old result room.new }
{
    let heard = listening::listen(demodulator, samples);
    let settled = heard.settled;
    let window = heard.window;
    let written = put_settled(settled, window, room);
    let answer = heard.answer;
    let left = heard.demodulator;
    Heard {
        answer,
        fed: heard.fed,
        written,
        demodulator: left,
    }
}

// Only an offer is followed by more samples: after any other answer the next one would be refused, or there is none.
pub(crate) fn hear_samples(
    demodulator: SoftDemodulator,
    samples: &[i16],
    lines: &mut [u8],
) -> Heard<Result<(), Refusal>>
    requires { Roomy samples.now lines.old }
    ensures { HearsAll demodulator samples.now lines.old result lines.new }
{
    if samples.len() == 0 {
        let heard = listening::listen(demodulator, samples);
        let answer = heard.answer;
        return Heard {
            answer: give_receipt(answer, 0),
            fed: 0,
            written: 0,
            demodulator,
        };
    }
    let mut left = demodulator;
    let mut fed: usize = 0;
    let mut written: usize = 0;
    // A turn takes the samples up to an offer, so no range gives the next one's place.
    while fed < samples.len() && LINE <= lines.len() - written {
        let heard = hear_stretch(left, &samples[fed..], &mut lines[written..]);
        let answer = heard.answer;
        let told = give_receipt(answer, fed);
        left = heard.demodulator;
        written += heard.written;
        fed += heard.fed;
        if !listening::is_offered(answer) {
            return Heard {
                answer: told,
                fed,
                written,
                demodulator: left,
            };
        }
    }
    Heard {
        answer: Ok(()),
        fed,
        written,
        demodulator: left,
    }
}
