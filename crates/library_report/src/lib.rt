// Request l's report as exports over memory that the caller lends. numbers: at places 0 to 23 the totals at 48 kHz, at 24 to 47 those at 24 kHz, at 48
// to 51 whether there is a smallest gain at 48 kHz, a largest, and both at 24 kHz, 1 or 0. gains has these four, 0.0 where there is none. Any
// numbers may be lent; a refused call leaves every lent place.
#![tactic(auto)]

ghost use Rattle.std.specs.Prelude.{◌≡◌, ◌≤◌, ◌<◌};
ghost use Rattle.figures.specs.Answers.{added_paper};
ghost use Rattle.library_report.specs.Layout.{is_report_lem, totals_from_lem, gain_in_lem, report_in_lem, held_number_lem, gain_number_lem, number_at_lem, numbers_of_lem, gains_of_lem};
ghost use Rattle.library_report.specs.Memory.{memory_at, settled_code, settled_memory, M17ReportNewSays, M17ReportAddSays, M17ReportMergeSays};

use figures::{AfterAdd, Figures, Report};

// Whether each of the four flags is one.
fn is_report(numbers: &[u64; 52]) -> bool
    ensures { result ≡ is_report_lem numbers.now }
{
    (numbers[48] <= 1) & (numbers[49] <= 1) & (numbers[50] <= 1) & (numbers[51] <= 1)
}

fn totals_from(place: usize, numbers: &[u64; 52]) -> [u64; 24]
    requires { place ≤ 24 }
    ensures { result ≡ totals_from_lem place numbers.now }
{
    let mut totals = [0u64; 24];
    totals.copy_from_slice(&numbers[place..place + 24]);
    totals
}

#[tactic(auto, unfolding(crate::specs::Layout::gain_in_lem))]
fn gain_in(held: u64, gain: f32) -> Option<f32>
    ensures { result ≡ gain_in_lem held gain }
{
    (held != 0).then_some(gain)
}

fn report_in(numbers: &[u64; 52], gains: &[f32; 4]) -> Report
    ensures { result ≡ report_in_lem numbers.now gains.now }
{
    let first = totals_from(0, numbers);
    let second = totals_from(24, numbers);
    let low_48 = gain_in(numbers[48], gains[0]);
    let high_48 = gain_in(numbers[49], gains[1]);
    let low_24 = gain_in(numbers[50], gains[2]);
    let high_24 = gain_in(numbers[51], gains[3]);
    let at_48 = Figures {
        totals: first,
        smallest: low_48,
        largest: high_48,
    };
    let at_24 = Figures {
        totals: second,
        smallest: low_24,
        largest: high_24,
    };
    Report { at_48, at_24 }
}

fn held_number(gain: Option<f32>) -> u64
    ensures { result ≡ held_number_lem gain }
{
    u64::from(gain.is_some())
}

fn gain_number(gain: Option<f32>) -> f32
    ensures { result ≡ gain_number_lem gain }
{
    gain.unwrap_or(0.0)
}

// The number at a place.
fn number_at(first: [u64; 24], second: [u64; 24], held: [u64; 4], place: usize) -> u64
    requires { place < 52 }
    ensures { result ≡ number_at_lem first second held place }
{
    if place < 24 {
        return first[place];
    }
    if place < 48 {
        return second[place - 24];
    }
    held[place - 48]
}

fn numbers_of(report: Report) -> [u64; 52]
    ensures { result ≡ numbers_of_lem report }
{
    let first = report.at_48;
    let second = report.at_24;
    let held = [
        held_number(first.smallest),
        held_number(first.largest),
        held_number(second.smallest),
        held_number(second.largest),
    ];
    let mut numbers = [0u64; 52];
    for (place, number) in numbers.iter_mut().enumerate() {
        *number = number_at(first.totals, second.totals, held, place);
    }
    numbers
}

fn gains_of(report: Report) -> [f32; 4]
    ensures { result ≡ gains_of_lem report }
{
    let at_48 = report.at_48;
    let at_24 = report.at_24;
    let low_48 = at_48.smallest;
    let high_48 = at_48.largest;
    let low_24 = at_24.smallest;
    let high_24 = at_24.largest;
    [
        gain_number(low_48),
        gain_number(high_48),
        gain_number(low_24),
        gain_number(high_24),
    ]
}

// The answer's code; the report is laid out unless the call is refused.
fn settle(after: AfterAdd, numbers: &mut [u64; 52], gains: &mut [f32; 4]) -> u32
    ensures { (result ≡ settled_code (added_paper after.answer)) × (memory_at numbers.new gains.new ≡ settled_memory (added_paper after.answer) after.report (memory_at numbers.old gains.old)) }
{
    if let Err(why) = after.answer {
        return library_codes::refusal_code(why);
    }
    let report = after.report;
    *numbers = numbers_of(report);
    *gains = gains_of(report);
    0
}

// "An empty run gives zeros and no gains."
#[unsafe(no_mangle)]
pub extern "C" fn m17_report_new(numbers: &mut [u64; 52], gains: &mut [f32; 4]) -> u32
    ensures { M17ReportNewSays result (memory_at numbers.new gains.new) }
{
    let report = Report::new();
    *numbers = numbers_of(report);
    *gains = gains_of(report);
    0
}

// 0, and the report has the recording's figures too.
#[unsafe(no_mangle)]
pub extern "C" fn m17_report_add(
    numbers: &mut [u64; 52],
    gains: &mut [f32; 4],
    rate: u32,
    recording: &[i16],
) -> u32
    ensures { M17ReportAddSays (memory_at numbers.old gains.old) rate recording.now result (memory_at numbers.new gains.new) }
{
    if !shaping::is_rate(rate) {
        return 115;
    }
    if !is_report(&*numbers) {
        return 101;
    }
    let report = report_in(&*numbers, &*gains);
    let after = report.add(rate, recording);
    settle(after, numbers, gains)
}

// 0, and the report is both in one.
#[unsafe(no_mangle)]
pub extern "C" fn m17_report_merge(
    numbers: &mut [u64; 52],
    gains: &mut [f32; 4],
    other_numbers: &[u64; 52],
    other_gains: &[f32; 4],
) -> u32
    ensures { M17ReportMergeSays (memory_at numbers.old gains.old) (memory_at other_numbers.now other_gains.now) result (memory_at numbers.new gains.new) }
{
    if !(is_report(&*numbers) & is_report(other_numbers)) {
        return 101;
    }
    let report = report_in(&*numbers, &*gains);
    let other = report_in(other_numbers, other_gains);
    let after = report.merge(other);
    settle(after, numbers, gains)
}
