// Samples and replies for a seat, and whether its receiver hears a carrier: the receiver's own exports, over the seat's part of the memory.
// Each is refused with 118 no such seat, 119 the seat is closed, 101 a flag that is neither 0 nor 1, and then as the receiver's export is.
ghost use Rattle.std.specs.Prelude.{[]};
ghost use Rattle.demodulator.specs.Singles.{reply, query};
ghost use Rattle.demodulator_run.specs.Calls.{one, stretch};
ghost use Rattle.desk_run.specs.Seat.{giving};
ghost use Rattle.desk_run.specs.Desk.{at};
ghost use Rattle.library_receiver.specs.Memory.{reply_of};
ghost use Rattle.library_desk.specs.Memory.{memory_at};
ghost use Rattle.library_desk.specs.Calls.{export_of, coded_as, Says};

use crate::passage;

// A stretch of samples: 0 quiet, 1 to 4 an offer of that kind. told: fed, sample, taken_at, age, replaced; gain: an offer's gain.
#[unsafe(no_mangle)]
pub extern "C" fn m17_desk_feed(
    windows: &mut [[i16; 162]; 8],
    rings: &mut [[f32; 1920]; 8],
    numbers: &mut [[u64; 14]; 8],
    levels: &mut [[f32; 3]; 8],
    opened: &[u64; 8],
    seat: u64,
    samples: &[i16],
    room: &mut [f32],
    told: &mut [u64; 5],
    gain: &mut [f32; 1],
) -> u32
    ensures { Says (memory_at windows.old rings.old numbers.old levels.old opened.now)
        (export_of (at seat (giving (stretch samples.now room.old))) told.old gain.old [])
        (coded_as result room.new told.new gain.new [])
        (memory_at windows.new rings.new numbers.new levels.new opened.now) }
{
    if 7 < seat {
        return 118;
    }
    let at = seat as usize;
    let turned = passage::turn_away(opened[at]);
    if 0 < turned {
        return turned;
    }
    library_receiver::m17_receiver_feed(
        &mut windows[at],
        &mut rings[at],
        &mut numbers[at],
        &mut levels[at],
        samples,
        room,
        told,
        gain,
    )
}

// The reply to the offer that the seat's receiver has made: 0 done.
#[unsafe(no_mangle)]
pub extern "C" fn m17_desk_reply(
    windows: &[[i16; 162]; 8],
    rings: &[[f32; 1920]; 8],
    numbers: &mut [[u64; 14]; 8],
    levels: &mut [[f32; 3]; 8],
    opened: &[u64; 8],
    seat: u64,
    accepted: u32,
) -> u32
    ensures { Says (memory_at windows.now rings.now numbers.old levels.old opened.now)
        (export_of (at seat (giving (one (reply (reply_of accepted))))) [] [] []) (coded_as result [] [] [] [])
        (memory_at windows.now rings.now numbers.new levels.new opened.now) }
{
    if 7 < seat {
        return 118;
    }
    let at = seat as usize;
    let turned = passage::turn_away(opened[at]);
    if 0 < turned {
        return turned;
    }
    library_receiver::m17_receiver_reply(
        &windows[at],
        &rings[at],
        &mut numbers[at],
        &mut levels[at],
        accepted,
    )
}

// 0 no, 1 yes.
#[unsafe(no_mangle)]
pub extern "C" fn m17_desk_carrier(
    windows: &[[i16; 162]; 8],
    rings: &[[f32; 1920]; 8],
    numbers: &[[u64; 14]; 8],
    levels: &[[f32; 3]; 8],
    opened: &[u64; 8],
    seat: u64,
) -> u32
    ensures { Says (memory_at windows.now rings.now numbers.now levels.now opened.now)
        (export_of (at seat (giving (one query))) [] [] []) (coded_as result [] [] [] [])
        (memory_at windows.now rings.now numbers.now levels.now opened.now) }
{
    if 7 < seat {
        return 118;
    }
    let at = seat as usize;
    let turned = passage::turn_away(opened[at]);
    if 0 < turned {
        return turned;
    }
    library_receiver::m17_receiver_carrier(&windows[at], &numbers[at], &levels[at])
}
