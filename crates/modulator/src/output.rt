// What the sender hands to the sound card, and what the card tells of its buffer: reads and updates.
ghost use Rattle.std.specs.Prelude.{◌≡◌, ℕ, ◌+◌, ◌-◌, ◌≤◌, min, pos, length, get_or};
ghost use Rattle.numbers.specs.Firsts.{written};
ghost use Rattle.modulator.specs.Control.{end_after_lem, updated_pending_lem};
ghost use Rattle.modulator.specs.Calls.{ReadOutputSamplesSays, UpdateOutputBufferSays};

use super::counts::wish_room;
use super::fit::{count_fit, record_fit, unfit_for};
use super::{After, OutputBuffer, Pending, Progress, SampleCount, SoftModulator};
use protocol::Refusal;
use shaping::PerSymbol;

// `usize::min`, the port's own.
fn fewer(a: usize, b: usize) -> usize
    ensures { result ≡ min a b }
{
    if b < a { b } else { a }
}

// Zeros for as much of the padding as the room holds.
fn write_padding(padding: SampleCount, room: &mut [i16]) -> usize
    ensures count { result ≡ min (length room.old) padding.0 }
    ensures zeros { room.new ≡ written (λ (i : ℕ). pos 0) result room.old }
{
    let end = fewer(room.len(), padding.0);
    room[..end].fill(0);
    end
}

// The samples of the store from the read place on, for as many as are left and the room holds.
fn copy_frame(store: &[i16; 4000], read: usize, len: usize, room: &mut [i16]) -> usize
    requires { (read ≤ len) × (len ≤ 4000) }
    ensures count { result ≡ min (length room.old) (len - read) }
    ensures samples { room.new ≡ written (λ (i : ℕ). get_or store.now (read + i) (pos 0)) result room.old }
{
    let end = fewer(room.len(), len - read);
    room[..end].copy_from_slice(&store[read..read + end]);
    end
}

// The samples from now to the end of the transmission: those that the card has, and those that are still to be read.
fn end_after(progress: Progress, fill: SampleCount, latency: SampleCount) -> SampleCount
    requires card { (fill.0 ≤ 16777216) × (latency.0 ≤ 16777216) }
    requires padding { progress.tx_delay_padding.0 ≤ 122400 }
    requires frame { (progress.next_read ≤ progress.next_len) × (progress.next_len ≤ 4000) }
    ensures { result.0 ≡ end_after_lem fill.0 latency.0 progress }
{
    let padding_left = progress.tx_delay_padding;
    let unread = progress.next_len - progress.next_read;
    let played = fill.0 + latency.0;
    let padded = played + padding_left.0;
    let end = padded + unread;
    SampleCount(end)
}

// What is pending once the card's counts are known: an end that is owed is reported, and the wish for a frame is raised or stays.
fn updated_pending(
    p: PerSymbol,
    pending: Pending,
    fill: SampleCount,
    capacity: SampleCount,
    end: SampleCount,
) -> Pending
    ensures { result ≡ updated_pending_lem p fill.0 capacity.0 end.0 pending }
{
    let room = capacity.saturating_sub(fill);
    let wish = (wish_room(p) <= room.0) | pending.try_get_frame;
    Pending {
        calculate_tx_end: false,
        report_tx_end: if pending.calculate_tx_end {
            Some(end)
        } else {
            pending.report_tx_end
        },
        try_get_frame: wish,
        ..pending
    }
}

impl SoftModulator {
    // Padding first, and then the frame into the rest of the room: the answer is how many places were written.
    pub fn read_output_samples(mut self, out: &mut [i16]) -> After<SampleCount>
        ensures { ReadOutputSamplesSays self out.old result out.new }
    {
        if !record_fit(self) {
            return After {
                answer: Err(unfit_for(self)),
                modulator: self,
            };
        }
        let progress = self.progress;
        let padding = progress.tx_delay_padding;
        let written = write_padding(padding, out);
        let copied = copy_frame(
            &self.next_transmission,
            progress.next_read,
            progress.next_len,
            &mut out[written..],
        );
        let next_read = progress.next_read + copied;
        let tx_delay_padding = padding.saturating_sub(SampleCount(written));
        let left = Progress {
            next_len: progress.next_len,
            next_read,
            tx_delay_padding,
        };
        let total = written + copied;
        self.progress = left;
        After {
            answer: Ok(SampleCount(total)),
            modulator: self,
        }
    }

    // What lies in the card's buffer, what it holds, and how many samples pass from there to the wire.
    pub fn update_output_buffer(
        mut self,
        samples_to_play: SampleCount,
        capacity: SampleCount,
        output_latency: SampleCount,
    ) -> After<()>
        ensures { UpdateOutputBufferSays self samples_to_play capacity output_latency result }
    {
        if !record_fit(self) {
            return After {
                answer: Err(unfit_for(self)),
                modulator: self,
            };
        }
        if !count_fit(samples_to_play) | !count_fit(capacity) | !count_fit(output_latency) {
            return After {
                answer: Err(Refusal::CountTooLarge),
                modulator: self,
            };
        }
        if capacity.0 < samples_to_play.0 {
            return After {
                answer: Err(Refusal::CapacityBelowFill),
                modulator: self,
            };
        }
        let pending = self.pending;
        let progress = self.progress;
        let end = end_after(progress, samples_to_play, output_latency);
        let p = PerSymbol::of(self.rate).unwrap();
        let told = updated_pending(p, pending, samples_to_play, capacity, end);
        let buffer = OutputBuffer {
            output_latency,
            samples_in_buf: samples_to_play,
            buf_capacity: capacity,
        };
        self.pending = told;
        self.buffer = buffer;
        After {
            answer: Ok(()),
            modulator: self,
        }
    }
}
