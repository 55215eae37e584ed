// The line at hand grows until it has ended, and a good one becomes a part.
ghost use Rattle.std.specs.Prelude.{◌≡◌, ◌+◌, ◌-◌, ◌≤◌, min, length, take};
ghost use Rattle.std.proofs.Math.Seq.{paste};
ghost use Rattle.modulator.specs.Paper.{done_paper};
ghost use Rattle.sending.specs.Text.{has_feed_lem};
ghost use Rattle.sending.specs.Calls.{Says, quiet, lacking, held, judged, next_number_lem, LacksSays};

use super::part::part;
use super::{AfterPart, Sending};
use given_symbols::Traffic;
use house::LINE_FEED;
use modulator::ModulatorFrame;
use protocol::Refusal;

// How many of n bytes go into the line: no more than it lacks.
pub(crate) fn count_taken(s: Sending, n: usize) -> usize
    ensures { result ≡ min n (lacking s) }
{
    n.min(s.lacks())
}

// The bytes go after those that the line has. With none to add, `have` may be past the line's end.
fn append(line: [u8; 97], have: usize, bytes: &[u8]) -> [u8; 97]
    requires { length bytes.now ≤ 97 - have }
    ensures { result ≡ paste line have bytes.now (length bytes.now) }
{
    let mut longer = line;
    if !bytes.is_empty() {
        longer[have..have + bytes.len()].copy_from_slice(bytes);
    }
    longer
}

fn has_feed(line: [u8; 97], n: usize) -> bool
    requires { n ≤ 97 }
    ensures { result ≡ has_feed_lem (take n line) }
{
    line[..n].contains(&LINE_FEED)
}

// A line's number stays at the largest that there is.
fn next_number(n: u64) -> u64
    ensures { result ≡ next_number_lem n }
{
    n.saturating_add(1)
}

// Nothing is to be written.
pub(crate) fn write_nothing(answer: Result<(), Refusal>, sending: Sending, bad: bool) -> AfterPart
    ensures { Says (quiet (done_paper answer) sending bad) result }
{
    AfterPart {
        answer,
        sending,
        bytes: [0; 5440],
        length: 0,
        taken: 0,
        bad,
        last: false,
    }
}

fn hold(s: Sending, bytes: &[u8]) -> Sending
    ensures { result ≡ held s bytes.now }
{
    let added = count_taken(s, bytes.len());
    let old = s.line;
    let line = append(old, s.have, &bytes[..added]);
    let have = s.have + added;
    let modulator = s.modulator;
    Sending {
        modulator,
        line,
        have,
        number: s.number,
    }
}

// Fewer than 97 bytes are a bad line if there is a line feed among them, and the beginning of a line if there is none.
fn judge(s: Sending) -> AfterPart
    ensures { Says (judged s) result }
{
    let line = s.line;
    let have = s.have;
    if have < 97 {
        return write_nothing(Ok(()), s, has_feed(line, have));
    }
    let Some(symbols) = house::line_symbols(line) else {
        return write_nothing(Ok(()), s, true);
    };
    let modulator = s.modulator;
    let next = Sending {
        modulator,
        line,
        have: 0,
        number: next_number(s.number),
    };
    part(
        next,
        ModulatorFrame::Symbols(Traffic::Ordinary),
        symbols,
        false,
        false,
    )
}

// The bytes, or as many of them as the line lacks.
pub(crate) fn take(s: Sending, bytes: &[u8]) -> AfterPart
    ensures { Says (judged (held s bytes.now)) result }
{
    judge(hold(s, bytes))
}

impl Sending {
    // How many bytes a read may give, so that all of them go into the line.
    pub fn lacks(self) -> usize
        ensures { LacksSays self result }
    {
        numbers::saturating_sub(97, self.have)
    }
}
