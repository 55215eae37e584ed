// What is in the window and the ring of a made-up record, at p samples in a symbol. The ring's places past those that the rate uses hold values too.
ghost use Rattle.std.specs.Prelude.{◌<◌, ◌≤◌};

// The samples in a symbol; a record of a rate that is none is laid out as one of 48 kHz.
pub(crate) fn samples_in(rate: u32) -> usize
    ensures { result ≤ 10 }
{
    if rate == 24000 { 5 } else { 10 }
}

// The place a symbol before this one, in the part of the ring that the rate uses.
pub(crate) fn symbol_before(p: usize, place: usize) -> usize
    requires { (p ≤ 10) × (place < 1920) }
{
    if place < p {
        place + 191 * p
    } else {
        place - p
    }
}

// A value of its own in each place: none can move unseen. `cases_sender_refusals` has the like: the two share no crate of made-up records.
fn own_values() -> [f32; 1920] {
    let mut ring = [0.0f32; 1920];
    let mut own: f32 = 0.0;
    for place in &mut ring {
        *place = own;
        own += 1.0;
    }
    ring
}

// Their own values in so many places, a symbol apart, back from the first, and others elsewhere; with 1,920 there are no others.
pub(crate) fn laid(p: usize, others: f32, but: usize, from: usize) -> [f32; 1920]
    requires { p ≤ 10 }
{
    let own = own_values();
    if 1920 <= but {
        return own;
    }
    let mut ring = [others; 1920];
    let mut place = from;
    for _ in 0..but {
        let at = place % 1920;
        ring[at] = own[at];
        place = symbol_before(p, at);
    }
    ring
}

// The LSF's word, 55F7, in the first eight places that a window reads, for the gain 20 and the shift 5.
pub(crate) fn headed(p: usize, word: bool, plain: [f32; 1920]) -> [f32; 1920]
    requires { p ≤ 10 }
{
    let mut ring = plain;
    if word {
        ring[p] = 25.0;
        ring[2 * p] = 25.0;
        ring[3 * p] = 25.0;
        ring[4 * p] = 25.0;
        ring[5 * p] = -15.0;
        ring[6 * p] = -15.0;
        ring[7 * p] = 25.0;
        ring[8 * p] = -15.0;
    }
    ring
}

// Seven values of the LSF's in the places that a sample searches.
pub(crate) fn searched(p: usize, burst: bool, plain: [f32; 1920]) -> [f32; 1920]
    requires { p ≤ 10 }
{
    let mut ring = plain;
    if burst {
        ring[185 * p] = 32.0;
        ring[186 * p] = 32.0;
        ring[187 * p] = 32.0;
        ring[188 * p] = 32.0;
        ring[189 * p] = -32.0;
        ring[190 * p] = -32.0;
        ring[191 * p] = 32.0;
    }
    ring
}

// Each sample twice. Beside the LSF's seven values the middle tap brings the eighth.
pub(crate) fn window(p: usize, burst: bool) -> [i16; 162]
    requires { p ≤ 10 }
{
    let mut window = [0i16; 162];
    if burst {
        window[4 * p + 1] = -89;
        window[12 * p + 2] = -89;
    } else {
        window[7] = 12345;
        window[8 * p + 8] = 12345;
    }
    window
}

// One sample more in this place, but not in that of its other half; past the window there is none.
pub(crate) fn unlike(plain: [i16; 162], place: u64) -> [i16; 162] {
    let mut window = plain;
    if place < 162 {
        window[place as usize] = 1;
    }
    window
}
