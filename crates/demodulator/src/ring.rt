// The filter's window, and the ring of filtered values, at p samples a symbol.
ghost use Rattle.std.specs.Prelude.{◌≡◌, ◌*◌, ◌+◌, ◌%◌, ◌<◌, ◌≤◌, length};
ghost use Rattle.numbers.specs.Below.{all_below};
ghost use Rattle.numbers.specs.Firsts.{firsts, written};
ghost use Rattle.shaping.specs.Rate.{tap_count, ring_places};
ghost use Rattle.decode.specs.Correlator.{in_range};
ghost use Rattle.demodulator.specs.Spans.{eight, symbol_at};
ghost use Rattle.demodulator.specs.Record.{ring_back};
ghost use Rattle.demodulator.specs.Parts.{Stores};

use search::Shown;
use shaping::PerSymbol;

// The place after this one in a ring of so many: a comparison is cheaper than a division.
pub(crate) fn place_after(places: usize, at: usize) -> usize
    requires { (at < places) × (places ≤ 1920) }
    ensures { (result < places) × (result ≡ (at + 1) % places) }
{
    let next = at + 1;
    if next == places { 0 } else { next }
}

// A place at most once past the ring's end, brought into it.
fn wrapped(p: PerSymbol, place: usize) -> usize
    requires { place < 2 * ring_places p }
    ensures { (result < ring_places p) × (result ≡ place % ring_places p) }
{
    let places = 192 * p.samples();
    if place < places {
        place
    } else {
        place - places
    }
}

// The filtered value of so many samples ago, 0 for the newest, which lies before the cursor.
pub(crate) fn value_back(p: PerSymbol, ring: &[f32; 1920], cursor: usize, ago: usize) -> f32
    requires { (cursor < ring_places p) × (ago < ring_places p) }
    ensures { result ≡ ring_back p ring.now cursor ago }
{
    let back = 192 * p.samples() - 1 - ago;
    let at = wrapped(p, cursor + back);
    ring[at]
}

// The filtered value of so many symbols ago: the one product of p and a variable.
fn symbol_back(p: PerSymbol, ring: &[f32; 1920], cursor: usize, symbols: usize) -> f32
    requires { (cursor < ring_places p) × (symbols < 192) }
    ensures { result ≡ ring_back p ring.now cursor (p * symbols) }
{
    let per = p.samples();
    let ago = per * symbols;
    value_back(p, ring, cursor, ago)
}

// The eight values of the correlator, the oldest first.
pub(crate) fn eight(p: PerSymbol, ring: &[f32; 1920], cursor: usize) -> [f32; 8]
    requires { cursor < ring_places p }
    ensures { result ≡ firsts (eight p (ring_back p ring.now cursor)) 8 }
{
    let mut values = [0.0f32; 8];
    for (i, value) in values.iter_mut().enumerate() {
        *value = symbol_back(p, ring, cursor, 7 - i);
    }
    values
}

// Whether the values `newest`, `newest` + p, .. samples ago, `count` of them, are all in range.
pub(crate) fn places_in_range(
    p: PerSymbol,
    ring: &[f32; 1920],
    cursor: usize,
    newest: usize,
    count: usize,
) -> bool
    requires { (cursor < ring_places p) × (newest < p) × (count ≤ 191) }
    ensures { result ≡ all_below count (λ j. in_range (ring_back p ring.now cursor (p * j + newest))) }
{
    let per = p.samples();
    let mut all = true;
    for j in 0..count {
        let ago = per * j + newest;
        all &= decode::in_range(value_back(p, ring, cursor, ago));
    }
    all
}

// The symbols of a due frame.
pub(crate) fn write_window(
    p: PerSymbol,
    ring: &[f32; 1920],
    cursor: usize,
    shown: Shown,
    room: &mut [f32],
)
    requires { (cursor < ring_places p) × (192 ≤ length room.old) }
    ensures { room.new ≡ written (symbol_at p shown (ring_back p ring.now cursor)) 192 room.old }
{
    for (i, symbol) in room[..192].iter_mut().enumerate() {
        *symbol = (symbol_back(p, ring, cursor, 191 - i) - shown.shift) / shown.gain;
    }
}

// The sample goes into the window, twice, and the tap sum of the last ones, which lie side by side, into the ring.
pub(crate) fn store(
    p: PerSymbol,
    filter_win: &mut [i16; 162],
    filter_cursor: usize,
    rx_win: &mut [f32; 1920],
    rx_cursor: usize,
    sample: i16,
)
    requires { (filter_cursor < tap_count p) × (rx_cursor < ring_places p) }
    ensures { Stores p filter_win.old filter_cursor rx_win.old rx_cursor sample filter_win.new rx_win.new }
{
    let per = p.samples();
    filter_win[filter_cursor] = sample;
    let again = filter_cursor + (8 * per + 1);
    filter_win[again] = sample;
    let oldest = filter_cursor + 1;
    let filtered = shaping::filter_samples(per, &*filter_win, oldest);
    rx_win[rx_cursor] = filtered;
}
