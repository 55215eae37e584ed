// The filtered values of a stretch in a row, at p samples a symbol: the filter in blocks, over a window and a ring that the caller lends.
ghost use Rattle.std.specs.Prelude.{◌≡◌, ℕ, ◌+◌, ◌*◌, ◌-◌, ◌≤◌, ◌<◌, length};
ghost use Rattle.numbers.specs.Firsts.{firsts, written};
ghost use Rattle.shaping.specs.Rate.{rate_at, tap_count, ring_places};
ghost use Rattle.shaping.specs.Sum.{sample_in};
ghost use Rattle.bulk.specs.Sums.{sum_from};
ghost use Rattle.demodulator.specs.Record.{ring_back};
ghost use Rattle.demodulator.specs.Stretch.{heard_float, Filters, Inside, Rows};

use crate::ring;
use crate::step::Places;
use shaping::PerSymbol;

fn put_floats(samples: &[i16], room: &mut [f32])
    requires { length samples.now ≤ length room.old }
    ensures { room.new ≡ written (sample_in samples.now) (length samples.now) room.old }
{
    for (i, sample) in samples.iter().enumerate() {
        room[i] = *sample as f32;
    }
}

// The window's newest samples, 80 or 40, and the stretch's after them.
fn lay_side_by_side(
    p: PerSymbol,
    filter_win: &[i16; 162],
    filter_cursor: usize,
    samples: &[i16],
    room: &mut [f32],
)
    requires { (filter_cursor < tap_count p) × (8 * p + length samples.now ≤ length room.old) }
    ensures { room.new ≡ written (heard_float p filter_win.now filter_cursor samples.now) (8 * p + length samples.now) room.old }
{
    let count = 8 * p.samples();
    let from = filter_cursor + 1;
    let to = from + count;
    let places: &[i16] = filter_win;
    put_floats(&places[from..to], room);
    put_floats(samples, &mut room[count..]);
}

// The tap sums of a block: all are 0.0 where all its samples are.
fn block_sums(p: PerSymbol, table: &[f32], row: &[f32]) -> [f32; 48]
    requires { (table.now ≡ (rate_at p).taps) × (length row.now ≡ 8 * p + 48) }
    ensures { result ≡ firsts (sum_from (rate_at p).taps row.now) 48 }
{
    if bulk::is_still(row) {
        return [0.0f32; 48];
    }
    bulk::tap_sums(table, row)
}

fn put_block(p: PerSymbol, table: &[f32], row: &[f32], room: &mut [f32])
    requires { (table.now ≡ (rate_at p).taps) × (length row.now ≡ 8 * p + 48) × (48 ≤ length room.old) }
    ensures { room.new ≡ written (sum_from (rate_at p).taps row.now) 48 room.old }
{
    let sums = block_sums(p, table, row);
    room[..48].copy_from_slice(&sums);
}

// The filtered values of the stretch, a block at a time.
fn put_by_table(p: PerSymbol, table: &[f32], straight: &[f32], count: usize, room: &mut [f32])
    requires { (table.now ≡ (rate_at p).taps) × (count ≤ 624) × (length straight.now ≡ 704) × (624 ≤ length room.old) }
    ensures { Filters p straight.now count room.old room.new }
{
    let width = 8 * p.samples() + 48;
    for k in (0..count).step_by(48) {
        let end = k + width;
        put_block(p, table, &straight[k..end], &mut room[k..]);
    }
}

fn put_filtered(p: PerSymbol, straight: &[f32], count: usize, room: &mut [f32])
    requires { (count ≤ 624) × (length straight.now ≡ 704) × (624 ≤ length room.old) }
    ensures { Filters p straight.now count room.old room.new }
{
    if p.samples() == 10 {
        let table = shaping::rrc_48k();
        put_by_table(p, &table, straight, count, room);
    } else {
        let table = shaping::rrc_24k();
        put_by_table(p, &table, straight, count, room);
    }
}

// The ring's newest values, those of seven symbols, the oldest of them first.
fn put_recent(p: PerSymbol, rx_win: &[f32; 1920], rx_cursor: usize, room: &mut [f32])
    requires { (rx_cursor < ring_places p) × (7 * p ≤ length room.old) }
    ensures { room.new ≡ written (λ (i : ℕ). ring_back p rx_win.now rx_cursor (7 * p - 1 - i)) (7 * p) room.old }
{
    let count = 7 * p.samples();
    for (i, value) in room[..count].iter_mut().enumerate() {
        let ago = count - 1 - i;
        *value = ring::value_back(p, rx_win, rx_cursor, ago);
    }
}

// The filtered values in a row: those of seven symbols before the stretch, and its own.
pub(crate) fn lay_row(
    p: PerSymbol,
    filter_win: &[i16; 162],
    rx_win: &[f32; 1920],
    places: Places,
    samples: &[i16],
    straight: &mut [f32],
    row: &mut [f32],
)
    requires { (Inside p places) × (length samples.now ≤ 624) × (length straight.old ≡ 704) × (length row.old ≡ 742) }
    ensures { Rows p filter_win.now rx_win.now places samples.now row.new }
{
    let before = 7 * p.samples();
    lay_side_by_side(p, filter_win, places.filter_cursor, samples, straight);
    put_recent(p, rx_win, places.rx_cursor, row);
    put_filtered(p, &*straight, samples.len(), &mut row[before..]);
}
