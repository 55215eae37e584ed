// What the sender hands to the sound card, and what it asks for: a read, an update and the next action. Store and window are only read.
ghost use Rattle.library_sender.specs.Memory.{memory_at};
ghost use Rattle.library_sender.specs.Exports.{M17SenderReadSays, M17SenderUpdateSays, M17SenderRunSays};

use crate::answers::{code_action, code_done, code_read, tell_action, tell_read};
use crate::layout::{check_numbers, read_record, write_numbers};
use modulator::SampleCount;

// 0, and beside it how many samples were written.
#[unsafe(no_mangle)]
pub extern "C" fn m17_sender_read(
    store: &[i16; 4000],
    window: &[f32; 81],
    numbers: &mut [u64; 13],
    out: &mut [i16],
    told: &mut u64,
) -> u32
    ensures { M17SenderReadSays (memory_at store.now window.now numbers.old) out.old told.old result (memory_at store.now window.now numbers.new) out.new told.new }
{
    let wrong = check_numbers(&*numbers);
    if wrong != 0 {
        return wrong;
    }
    let record = read_record(store, window, &*numbers);
    let after = record.read_output_samples(out);
    let answer = after.answer;
    let code = code_read(answer);
    if 100 <= code {
        return code;
    }
    let m = after.modulator;
    write_numbers(m, numbers);
    let now = tell_read(answer, *told);
    *told = now;
    code
}

#[unsafe(no_mangle)]
pub extern "C" fn m17_sender_update(
    store: &[i16; 4000],
    window: &[f32; 81],
    numbers: &mut [u64; 13],
    fill: u64,
    capacity: u64,
    latency: u64,
) -> u32
    ensures { M17SenderUpdateSays (memory_at store.now window.now numbers.old) fill capacity latency result (memory_at store.now window.now numbers.new) }
{
    let wrong = check_numbers(&*numbers);
    if wrong != 0 {
        return wrong;
    }
    let record = read_record(store, window, &*numbers);
    let in_buffer = SampleCount(fill as usize);
    let held = SampleCount(capacity as usize);
    let delay = SampleCount(latency as usize);
    let after = record.update_output_buffer(in_buffer, held, delay);
    let code = code_done(after.answer);
    if 100 <= code {
        return code;
    }
    let m = after.modulator;
    write_numbers(m, numbers);
    code
}

// 0 nothing, 1 the transmission will end (beside it: after how many samples), 2 read the output, 3 set idle (beside it: 0 or 1), 4 get the
// next frame.
#[unsafe(no_mangle)]
pub extern "C" fn m17_sender_run(
    store: &[i16; 4000],
    window: &[f32; 81],
    numbers: &mut [u64; 13],
    told: &mut u64,
) -> u32
    ensures { M17SenderRunSays (memory_at store.now window.now numbers.old) told.old result (memory_at store.now window.now numbers.new) told.new }
{
    let wrong = check_numbers(&*numbers);
    if wrong != 0 {
        return wrong;
    }
    let record = read_record(store, window, &*numbers);
    let after = record.run();
    let answer = after.answer;
    let code = code_action(answer);
    if 100 <= code {
        return code;
    }
    let m = after.modulator;
    write_numbers(m, numbers);
    let now = tell_action(answer, *told);
    *told = now;
    code
}
