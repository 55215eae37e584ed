// A fresh sender, and the four frames that it is given. Each answers 0, or a refusal's code.
ghost use Rattle.std.specs.Prelude.{◌≡◌};
ghost use Rattle.library_sender.specs.Memory.{memory_at};
ghost use Rattle.library_sender.specs.Exports.{traffic_of, Provides, M17SenderNewSays, M17SenderPreambleSays, M17SenderSymbolsSays, M17SenderEndSays, M17SenderNoFrameSays};

use crate::answers::code_done;
use crate::layout::{check_numbers, lay_out, read_record};
use given_symbols::Traffic;
use modulator::{DelaySteps, ModulatorFrame, SoftModulator};

#[unsafe(no_mangle)]
pub extern "C" fn m17_sender_new(
    store: &mut [i16; 4000],
    window: &mut [f32; 81],
    numbers: &mut [u64; 13],
    rate: u32,
) -> u32
    ensures { M17SenderNewSays (memory_at store.old window.old numbers.old) rate result (memory_at store.new window.new numbers.new) }
{
    let after = SoftModulator::new(rate);
    let code = code_done(after.answer);
    if 100 <= code {
        return code;
    }
    let m = after.modulator;
    lay_out(m, store, window, numbers);
    code
}

fn provide(
    store: &mut [i16; 4000],
    window: &mut [f32; 81],
    numbers: &mut [u64; 13],
    frame: ModulatorFrame,
    symbols: &[f32],
) -> u32
    ensures { Provides (memory_at store.old window.old numbers.old) frame symbols.now result (memory_at store.new window.new numbers.new) }
{
    let wrong = check_numbers(&*numbers);
    if wrong != 0 {
        return wrong;
    }
    let record = read_record(&*store, &*window, &*numbers);
    let after = record.provide_next_frame(frame, symbols);
    let code = code_done(after.answer);
    if 100 <= code {
        return code;
    }
    let m = after.modulator;
    lay_out(m, store, window, numbers);
    code
}

fn choose_traffic(bert: u32) -> Traffic
    ensures { result ≡ traffic_of bert }
{
    if bert == 0 {
        Traffic::Ordinary
    } else {
        Traffic::Bert
    }
}

#[unsafe(no_mangle)]
pub extern "C" fn m17_sender_preamble(
    store: &mut [i16; 4000],
    window: &mut [f32; 81],
    numbers: &mut [u64; 13],
    bert: u32,
    tx_delay: u8,
) -> u32
    ensures { M17SenderPreambleSays (memory_at store.old window.old numbers.old) bert tx_delay result (memory_at store.new window.new numbers.new) }
{
    let traffic = choose_traffic(bert);
    let steps = DelaySteps(tx_delay);
    let frame = ModulatorFrame::Preamble(traffic, steps);
    let none = [0.0f32; 1];
    provide(store, window, numbers, frame, &none)
}

#[unsafe(no_mangle)]
pub extern "C" fn m17_sender_symbols(
    store: &mut [i16; 4000],
    window: &mut [f32; 81],
    numbers: &mut [u64; 13],
    bert: u32,
    symbols: &[f32],
) -> u32
    ensures { M17SenderSymbolsSays (memory_at store.old window.old numbers.old) bert symbols.now result (memory_at store.new window.new numbers.new) }
{
    let traffic = choose_traffic(bert);
    let frame = ModulatorFrame::Symbols(traffic);
    provide(store, window, numbers, frame, symbols)
}

#[unsafe(no_mangle)]
pub extern "C" fn m17_sender_end(
    store: &mut [i16; 4000],
    window: &mut [f32; 81],
    numbers: &mut [u64; 13],
) -> u32
    ensures { M17SenderEndSays (memory_at store.old window.old numbers.old) result (memory_at store.new window.new numbers.new) }
{
    let frame = ModulatorFrame::EndOfTransmission;
    let none = [0.0f32; 1];
    provide(store, window, numbers, frame, &none)
}

#[unsafe(no_mangle)]
pub extern "C" fn m17_sender_no_frame(
    store: &mut [i16; 4000],
    window: &mut [f32; 81],
    numbers: &mut [u64; 13],
) -> u32
    ensures { M17SenderNoFrameSays (memory_at store.old window.old numbers.old) result (memory_at store.new window.new numbers.new) }
{
    let frame = ModulatorFrame::Nothing;
    let none = [0.0f32; 1];
    provide(store, window, numbers, frame, &none)
}
