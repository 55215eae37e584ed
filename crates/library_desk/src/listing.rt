// The listing of all seats, the one call that reads more than its own seat.
ghost use Rattle.std.specs.Prelude.{◌≡◌, []};
ghost use Rattle.desk_run.specs.Desk.{listing};
ghost use Rattle.library_desk.specs.Memory.{memory_at};
ghost use Rattle.library_desk.specs.Listing.{SeatTested, SeatsTested, line_in, lines_in};
ghost use Rattle.library_desk.specs.Calls.{export_of, coded_as, Says};

// Whether a seat is refused with 115, and whether one is with 101.
#[derive(Clone, Copy)]
struct Tested {
    pub strange: bool,
    pub unfit: bool,
}

// A seat's three numbers.
#[derive(Clone, Copy)]
struct LineNumbers {
    pub opened: u64,
    pub count: u64,
    pub owed: u64,
}

// What the listing is refused with for this seat: 0 for a closed one and for an open one that is fit.
fn test_seat(flag: u64, window: &[i16; 162], numbers: &[u64; 14], levels: &[f32; 3]) -> u32
    ensures { SeatTested flag window.now numbers.now levels.now result }
{
    if flag == 0 {
        return 0;
    }
    if 1 < flag {
        return 101;
    }
    let code = library_receiver::m17_receiver_carrier(window, numbers, levels);
    if 100 <= code {
        return code;
    }
    0
}

fn test_seats(
    windows: &[[i16; 162]; 8],
    numbers: &[[u64; 14]; 8],
    levels: &[[f32; 3]; 8],
    opened: &[u64; 8],
) -> Tested
    ensures { SeatsTested windows.now numbers.now levels.now opened.now 8 result.strange result.unfit }
{
    let mut strange = false;
    let mut unfit = false;
    for at in 0..8 {
        let code = test_seat(opened[at], &windows[at], &numbers[at], &levels[at]);
        strange |= code == 115;
        unfit |= code == 101;
    }
    Tested { strange, unfit }
}

fn line_of(flag: u64, numbers: &[u64; 14]) -> LineNumbers
    ensures { result ≡ line_in flag numbers.now }
{
    if flag == 1 {
        let owed = library_codes::flag_of(numbers[13] == 1);
        return LineNumbers {
            opened: 1,
            count: numbers[3],
            owed,
        };
    }
    LineNumbers {
        opened: 0,
        count: 0,
        owed: 0,
    }
}

fn write_lines(numbers: &[[u64; 14]; 8], opened: &[u64; 8], lines: &mut [u64; 24])
    ensures { lines.new ≡ lines_in numbers.now opened.now }
{
    let a = line_of(opened[0], &numbers[0]);
    let b = line_of(opened[1], &numbers[1]);
    let c = line_of(opened[2], &numbers[2]);
    let d = line_of(opened[3], &numbers[3]);
    let e = line_of(opened[4], &numbers[4]);
    let f = line_of(opened[5], &numbers[5]);
    let g = line_of(opened[6], &numbers[6]);
    let h = line_of(opened[7], &numbers[7]);
    *lines = [
        a.opened, a.count, a.owed, b.opened, b.count, b.owed, c.opened, c.count, c.owed, d.opened,
        d.count, d.owed, e.opened, e.count, e.owed, f.opened, f.count, f.owed, g.opened, g.count,
        g.owed, h.opened, h.count, h.owed,
    ];
}

// Three numbers for each seat: 0 closed or 1 open, the count, whether a reply is owed. 115 where the rate of an open seat is neither of the two; otherwise
// 101 where a flag is neither 0 nor 1, or the numbers of an open seat are no receiver's, or its receiver is unfit.
#[unsafe(no_mangle)]
pub extern "C" fn m17_desk_list(
    windows: &[[i16; 162]; 8],
    rings: &[[f32; 1920]; 8],
    numbers: &[[u64; 14]; 8],
    levels: &[[f32; 3]; 8],
    opened: &[u64; 8],
    lines: &mut [u64; 24],
) -> u32
    ensures { Says (memory_at windows.now rings.now numbers.now levels.now opened.now)
        (export_of listing [] [] lines.old) (coded_as result [] [] [] lines.new)
        (memory_at windows.now rings.now numbers.now levels.now opened.now) }
{
    let tested = test_seats(windows, numbers, levels, opened);
    if tested.strange {
        return 115;
    }
    if tested.unfit {
        return 101;
    }
    write_lines(numbers, opened, lines);
    0
}
