// A receiver's control as numbers that C can keep, and back.
// The 14 numbers: 0 rate, 1 the window's cursor, 2 the ring's cursor, 3 the count; of the candidate 4 kind (0 for none), 5 age, 6 taken at;
// of the wait 7 held, 8 left, 9 age, 10 mark; of the carrier timer 11 held, 12 end; 13 a reply is owed.
// The 3 levels are the candidate's diff, gain and shift.
#![tactic(auto)]

ghost use Rattle.std.specs.Prelude.{◌≡◌};
ghost use Rattle.shaping.specs.Rate.{rate_fit};
ghost use Rattle.library_layout.specs.Promises.{IsReceiverSays, RecordCodeSays, ReadControlSays, WriteControlSays};

use search::Control;

mod meaning;
mod notation;

// Whether the numbers are within what a record's fields can hold. The count and the places are not tested here.
pub fn is_receiver(numbers: &[u64; 14]) -> bool
    ensures { IsReceiverSays numbers.now result }
{
    (numbers[4] <= 4)
        & (numbers[5] <= 255)
        & (numbers[7] <= 1)
        & (numbers[8] <= 65535)
        & (numbers[9] <= 255)
        & (numbers[10] <= 1)
        & (numbers[11] <= 1)
        & (numbers[13] <= 1)
}

fn is_rate(number: u64) -> bool
    ensures { result ≡ rate_fit number }
{
    (number == 48000) | (number == 24000)
}

// What a call on these numbers is refused with before all else: 115 where the rate is none, 101 where they are no receiver's.
// 0 where they are one's.
pub fn record_code(numbers: &[u64; 14]) -> u32
    ensures { RecordCodeSays numbers.now result }
{
    if !is_rate(numbers[0]) {
        return 115;
    }
    if !is_receiver(numbers) {
        return 101;
    }
    0
}

// The control that the numbers and the levels mean.
pub fn read_control(numbers: &[u64; 14], levels: &[f32; 3]) -> Control
    ensures { ReadControlSays numbers.now levels.now result }
{
    let candidate = meaning::read_candidate(numbers, levels);
    let wait = meaning::read_wait(numbers);
    let dcd = meaning::read_timer(numbers);
    let owed = numbers[13] == 1;
    Control {
        candidate,
        wait,
        dcd,
        owed,
        sample: numbers[3],
    }
}

// The numbers and the levels of a receiver with this rate, these cursors and this control.
pub fn write_control(
    rate: u32,
    filter_cursor: usize,
    rx_cursor: usize,
    control: Control,
    numbers: &mut [u64; 14],
    levels: &mut [f32; 3],
)
    ensures { WriteControlSays rate filter_cursor rx_cursor control numbers.new levels.new }
{
    let candidate = control.candidate;
    let wait = control.wait;
    let timer = control.dcd;
    let held = notation::number_candidate(candidate);
    let due = notation::number_wait(wait);
    let carrier = notation::number_timer(timer);
    let owed = library_codes::flag_of(control.owed);
    *numbers = [
        rate as u64,
        filter_cursor as u64,
        rx_cursor as u64,
        control.sample,
        held.kind,
        held.age,
        held.taken_at,
        due.held,
        due.left,
        due.age,
        due.mark,
        carrier.held,
        carrier.end,
        owed,
    ];
    let written = held.levels;
    *levels = written;
}
