// The way of symbols through the filter's window: a symbol's pulse enters and then zeros, ten values in all or five by the rate, and each makes one sample.
// Where the window holds nothing but pulses, one to a symbol, the zeros between them are skipped.
#![tactic(auto)]

ghost use Rattle.std.specs.Prelude.{◌*◌, ◌≤◌, length};
ghost use Rattle.shaping.specs.Rate.{rate_at};
ghost use Rattle.pulse.specs.Pulse.{pulses, listed, line_at, Sent};
ghost use Rattle.pulse.specs.Promises.{PushSymbolsSays};

mod full;
mod phases;
mod row;
mod samples;
mod window;

use shaping::PerSymbol;
use window::Ring;

// The size of a whole symbol, which no window value passes: 16,383 over the largest gain of the filter at ten samples a symbol, some 0.462.
pub const FULL_SYMBOL: f32 = 35461.0;

fn push_ready(ring: &mut Ring, symbols: &[f32], room: &mut [i16])
    requires { ring.old.p * length symbols.now ≤ length room.old }
    ensures { Sent (rate_at ring.old.p) (pulses ring.old.p (listed symbols.now)) (ring.old.p * length symbols.now) (line_at ring.old.values ring.old.cursor) room.old (line_at ring.new.values ring.new.cursor) room.new }
{
    if ring.has_pulses_only() {
        ring.put_samples(symbols, room);
        ring.fill(symbols);
    } else {
        ring.push_each(symbols, room);
    }
}

// The symbols' samples go to the front of the room, and the next cursor is given. At 24 kHz the window's first 41 places are used.
// With a rate that is none, a cursor past the window, or too little room, all is given back as it is.
pub fn push_symbols(
    rate: u32,
    window: &mut [f32; 81],
    cursor: usize,
    symbols: &[f32],
    room: &mut [i16],
) -> usize
    ensures { PushSymbolsSays rate window.old cursor symbols.now room.old result window.new room.new }
{
    let Some(p) = PerSymbol::of(rate) else {
        return cursor;
    };
    if 8 * p.samples() < cursor {
        return cursor;
    }
    if room.len() / p.samples() < symbols.len() {
        return cursor;
    }
    let mut ring = Ring {
        p,
        values: *window,
        cursor,
    };
    push_ready(&mut ring, symbols, room);
    *window = ring.values;
    ring.cursor
}
