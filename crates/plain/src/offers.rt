// The list of offers: counted first, and written once it is known to fit, so that a refusal leaves both rooms as they were. Between two offers nothing is kept but the sample at which the
// search goes on.
ghost use Rattle.std.specs.Prelude.{◌≡◌, cond, ◌++◌, ◌+◌, ◌≤◌, length, take, drop};
ghost use Rattle.numbers.specs.Firsts.{written};
ghost use Rattle.demodulator.specs.Spans.{symbol_at};
ghost use Rattle.plain.specs.Values.{from_whole};
ghost use Rattle.plain.specs.Rest.{resumes_at, numbers_of_lem, offer_of_due, entry_at};
ghost use Rattle.plain.specs.Listing.{rules_list, shows, Leaves, Roomy, WritesOne, WritesAll};

use crate::due::Due;
use crate::heard::Heard;
use crate::pursuit;
use protocol::Refusal;
use search::Shown;

// The sample at which the search goes on after an offer. Accepted: the sample is finished. Rejected: the search runs for that same sample.
fn resume(sample: usize, accepted: bool) -> usize
    requires { sample ≤ 65536 }
    ensures { result ≡ resumes_at accepted sample }
{
    if accepted { sample + 1 } else { sample }
}

fn mark_of(replaced: bool) -> u64
    ensures { result ≡ cond replaced 1 0 }
{
    u64::from(replaced)
}

// An offer's kind, by its place in the order of trial, its sample, where it was taken, its age and its mark.
fn write_numbers(due: Due, numbers: &mut [u64])
    requires { 5 ≤ length numbers.old }
    ensures { numbers.new ≡ numbers_of_lem (offer_of_due due) ++ drop 5 numbers.old }
{
    let shown = due.shown;
    let kind = shown.kind;
    numbers[0] = pursuit::place_of(kind);
    numbers[1] = due.sample as u64;
    numbers[2] = shown.taken_at;
    numbers[3] = shown.age as u64;
    numbers[4] = mark_of(shown.replaced);
}

impl Heard<'_> {
    // How many offers the list has: one for each reply that is read, and the first that has none.
    fn count_offers(&self, replies: &[bool]) -> usize
        ensures { result ≡ length (rules_list self.now.table.now self.now.p self.now.recording.now replies.now) }
    {
        let mut from: usize = 1;
        for (count, accepted) in replies.iter().enumerate() {
            let next = self.next_due(from);
            match next {
                None => return count,
                Some(due) => {
                    from = resume(due.sample, *accepted);
                }
            }
        }
        let last = self.next_due(from);
        match last {
            None => replies.len(),
            Some(_) => replies.len() + 1,
        }
    }

    fn write_symbols(&self, shown: Shown, sample: usize, symbols: &mut [f32])
        requires { (sample ≤ 65536) × (192 ≤ length symbols.old) }
        ensures { symbols.new ≡ written (symbol_at self.now.p shown (from_whole self.now.table.now self.now.p self.now.recording.now sample)) 192 symbols.old }
    {
        for (i, symbol) in symbols[..192].iter_mut().enumerate() {
            let value = self.symbols_before(sample, 191 - i);
            *symbol = (value - shown.shift) / shown.gain;
        }
    }

    // Writes an offer after `count` others.
    fn write_entry(&self, due: Due, count: usize, numbers: &mut [u64], symbols: &mut [f32])
        requires { (due.sample ≤ 65536) × Roomy (count + 1) numbers.old symbols.old }
        ensures { WritesOne count (entry_at self.now.table.now self.now.p self.now.recording.now due) numbers.old symbols.old numbers.new symbols.new }
    {
        let shown = due.shown;
        let at = 5 * count;
        let window = 192 * count;
        write_numbers(due, &mut numbers[at..]);
        self.write_symbols(shown, due.sample, &mut symbols[window..]);
    }

    // Writes the list, which has so many offers and for which there is room. After the last of them nothing is searched.
    fn write_offers(
        &self,
        replies: &[bool],
        offers: usize,
        numbers: &mut [u64],
        symbols: &mut [f32],
    )
        requires { (offers ≡ length (rules_list self.now.table.now self.now.p self.now.recording.now replies.now)) × Roomy offers numbers.old symbols.old }
        ensures { WritesAll (rules_list self.now.table.now self.now.p self.now.recording.now replies.now) numbers.old symbols.old numbers.new symbols.new }
    {
        let mut from: usize = 1;
        for count in 0..offers {
            let next = self.next_due(from);
            let Some(due) = next else {
                return;
            };
            self.write_entry(due, count, numbers, symbols);
            if count == replies.len() {
                return;
            }
            from = resume(due.sample, replies[count]);
        }
    }

    // The whole call at p samples in a symbol.
    pub(crate) fn list_at(
        &self,
        replies: &[bool],
        numbers: &mut [u64],
        symbols: &mut [f32],
    ) -> Result<usize, Refusal>
        ensures { Leaves (shows (rules_list self.now.table.now self.now.p self.now.recording.now replies.now) numbers.old symbols.old) result numbers.new symbols.new }
    {
        let count = self.count_offers(replies);
        if numbers.len() / 5 < count {
            return Err(Refusal::ListRoomTooSmall);
        }
        if symbols.len() / 192 < count {
            return Err(Refusal::ListRoomTooSmall);
        }
        self.write_offers(replies, count, numbers, symbols);
        Ok(count)
    }
}
