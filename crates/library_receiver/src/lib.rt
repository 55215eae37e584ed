// The receiver's exports, over memory that the caller lends: a fresh receiver, a stretch of samples, a reply, the carrier query.
// No bytes are taken on trust: numbers that are no receiver's are refused, and a refused call leaves every lent place as it was.
#![tactic(auto)]

ghost use Rattle.library_receiver.specs.Memory.{memory_at, lent_as};
ghost use Rattle.library_receiver.specs.Promises.{M17ReceiverNewSays, M17ReceiverFeedSays};
ghost use Rattle.library_receiver.specs.Promises.{M17ReceiverReplySays, M17ReceiverCarrierSays};

mod answers;

#[unsafe(no_mangle)]
pub extern "C" fn m17_receiver_new(
    window: &mut [i16; 162],
    ring: &mut [f32; 1920],
    numbers: &mut [u64; 14],
    levels: &mut [f32; 3],
    rate: u32,
) -> u32
    ensures { M17ReceiverNewSays
        (memory_at window.old ring.old numbers.old levels.old) rate
        result (memory_at window.new ring.new numbers.new levels.new) }
{
    if !shaping::is_rate(rate) {
        return 115;
    }
    *window = [0i16; 162];
    *ring = [0.0f32; 1920];
    *numbers = [rate as u64, 0, 0, 0, 0, 0, 0, 0, 0, 0, 0, 0, 0, 0];
    *levels = [0.0f32, 0.0f32, 0.0f32];
    0
}

// 0 quiet, 1 to 4 an offer of that kind. An offer's symbols are then the room's first 192 places.
#[unsafe(no_mangle)]
pub extern "C" fn m17_receiver_feed(
    window: &mut [i16; 162],
    ring: &mut [f32; 1920],
    numbers: &mut [u64; 14],
    levels: &mut [f32; 3],
    samples: &[i16],
    room: &mut [f32],
    told: &mut [u64; 5],
    gain: &mut [f32; 1],
) -> u32
    ensures { M17ReceiverFeedSays
        (memory_at window.old ring.old numbers.old levels.old)
        samples.now (lent_as room.old told.old gain.old)
        result (memory_at window.new ring.new numbers.new levels.new)
        (lent_as room.new told.new gain.new) }
{
    let unfit = library_layout::record_code(&*numbers);
    if 100 <= unfit {
        return unfit;
    }
    let control = library_layout::read_control(&*numbers, &*levels);
    let rate = (numbers[0] % 65536) as u32;
    let filter_cursor = numbers[1] as usize;
    let rx_cursor = numbers[2] as usize;
    let after = demodulator::feed_lent(
        rate,
        window,
        ring,
        filter_cursor,
        rx_cursor,
        control,
        samples,
        room,
    );
    let answer = after.answer;
    let code = answers::code_heard(answer);
    if 100 <= code {
        return code;
    }
    let next = after.control;
    library_layout::write_control(
        rate,
        after.filter_cursor,
        after.rx_cursor,
        next,
        numbers,
        levels,
    );
    let offer = answers::tell_offer(answer, after.fed, *told);
    *told = offer;
    let level = answers::tell_gain(answer, *gain);
    *gain = level;
    code
}

// 0 done. An accepted of 0 is rejected, any other number accepted.
#[unsafe(no_mangle)]
pub extern "C" fn m17_receiver_reply(
    window: &[i16; 162],
    ring: &[f32; 1920],
    numbers: &mut [u64; 14],
    levels: &mut [f32; 3],
    accepted: u32,
) -> u32
    ensures { M17ReceiverReplySays
        (memory_at window.now ring.now numbers.old levels.old) accepted
        result (memory_at window.now ring.now numbers.new levels.new) }
{
    let unfit = library_layout::record_code(&*numbers);
    if 100 <= unfit {
        return unfit;
    }
    let control = library_layout::read_control(&*numbers, &*levels);
    let rate = (numbers[0] % 65536) as u32;
    let filter_cursor = numbers[1] as usize;
    let rx_cursor = numbers[2] as usize;
    let reply = answers::read_reply(accepted);
    let after = demodulator::reply_lent(
        rate,
        window,
        ring,
        filter_cursor,
        rx_cursor,
        control,
        reply,
    );
    let answer = after.answer;
    let code = answers::code_replied(answer);
    if 100 <= code {
        return code;
    }
    let next = after.control;
    library_layout::write_control(rate, filter_cursor, rx_cursor, next, numbers, levels);
    code
}

// 0 no, 1 yes. The ring is not asked for.
#[unsafe(no_mangle)]
pub extern "C" fn m17_receiver_carrier(
    window: &[i16; 162],
    numbers: &[u64; 14],
    levels: &[f32; 3],
) -> u32
    ensures { M17ReceiverCarrierSays window.now numbers.now levels.now result }
{
    let unfit = library_layout::record_code(numbers);
    if 100 <= unfit {
        return unfit;
    }
    let control = library_layout::read_control(numbers, levels);
    let rate = (numbers[0] % 65536) as u32;
    let filter_cursor = numbers[1] as usize;
    let rx_cursor = numbers[2] as usize;
    let answer = demodulator::carrier_lent(rate, window, filter_cursor, rx_cursor, control);
    answers::code_carrier(answer)
}
