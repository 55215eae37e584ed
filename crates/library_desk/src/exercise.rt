// A fresh desk; an exercise opens at a seat, and is closed.
ghost use Rattle.std.specs.Prelude.{[]};
ghost use Rattle.desk_run.specs.Seat.{opening, closing};
ghost use Rattle.desk_run.specs.Desk.{at};
ghost use Rattle.library_desk.specs.Memory.{memory_at};
ghost use Rattle.library_desk.specs.Calls.{export_of, coded_as, Says, M17DeskNewSays};

use crate::passage;

// All seats closed.
#[unsafe(no_mangle)]
pub extern "C" fn m17_desk_new(
    windows: &mut [[i16; 162]; 8],
    rings: &mut [[f32; 1920]; 8],
    numbers: &mut [[u64; 14]; 8],
    levels: &mut [[f32; 3]; 8],
    opened: &mut [u64; 8],
) -> u32
    ensures { M17DeskNewSays result (memory_at windows.new rings.new numbers.new levels.new opened.new) }
{
    let window = [0i16; 162];
    let ring = [0.0f32; 1920];
    let unread: [u64; 14] = [48000, 0, 0, 0, 0, 0, 0, 0, 0, 0, 0, 0, 0, 0];
    let level = [0.0f32, 0.0f32, 0.0f32];
    *windows = [window; 8];
    *rings = [ring; 8];
    *numbers = [unread; 8];
    *levels = [level; 8];
    *opened = [0; 8];
    0
}

// A fresh receiver of the stated rate: 0. Refused with 118 no such seat, 101 a flag that is neither 0 nor 1, 120 the seat is open, 115 no such rate.
#[unsafe(no_mangle)]
pub extern "C" fn m17_desk_open(
    windows: &mut [[i16; 162]; 8],
    rings: &mut [[f32; 1920]; 8],
    numbers: &mut [[u64; 14]; 8],
    levels: &mut [[f32; 3]; 8],
    opened: &mut [u64; 8],
    seat: u64,
    rate: u32,
) -> u32
    ensures { Says (memory_at windows.old rings.old numbers.old levels.old opened.old)
        (export_of (at seat (opening rate)) [] [] []) (coded_as result [] [] [] [])
        (memory_at windows.new rings.new numbers.new levels.new opened.new) }
{
    if 7 < seat {
        return 118;
    }
    let at = seat as usize;
    let flag = opened[at];
    if 1 < flag {
        return 101;
    }
    if flag == 1 {
        return 120;
    }
    let code = library_receiver::m17_receiver_new(
        &mut windows[at],
        &mut rings[at],
        &mut numbers[at],
        &mut levels[at],
        rate,
    );
    if 100 <= code {
        return code;
    }
    opened[at] = 1;
    0
}

// The end of a seat's exercise: 0. It tests what the carrier query does; the receiver stays as it is. Refused with 118, 119 the seat is closed, 101, 115.
#[unsafe(no_mangle)]
pub extern "C" fn m17_desk_close(
    windows: &[[i16; 162]; 8],
    rings: &[[f32; 1920]; 8],
    numbers: &[[u64; 14]; 8],
    levels: &[[f32; 3]; 8],
    opened: &mut [u64; 8],
    seat: u64,
) -> u32
    ensures { Says (memory_at windows.now rings.now numbers.now levels.now opened.old)
        (export_of (at seat closing) [] [] []) (coded_as result [] [] [] [])
        (memory_at windows.now rings.now numbers.now levels.now opened.new) }
{
    if 7 < seat {
        return 118;
    }
    let at = seat as usize;
    let turned = passage::turn_away(opened[at]);
    if 0 < turned {
        return turned;
    }
    let code = library_receiver::m17_receiver_carrier(&windows[at], &numbers[at], &levels[at]);
    if 100 <= code {
        return code;
    }
    opened[at] = 0;
    0
}
