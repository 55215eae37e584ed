// The listing of all seats, the one call that reads more than its own seat.
ghost use Rattle.std.specs.Prelude.{◌≡◌, ◌<◌};
ghost use Rattle.desk.specs.Listing.{strange, unfit, TestsSeats, line_of, line_at, line_paper, lines_paper, lines_at, DeskListSays};

use crate::{Desk, Line};
use demodulator::SoftDemodulator;
use protocol::Refusal;

// Whether a seat is open and its rate neither of the two.
fn is_strange(flag: bool, receiver: SoftDemodulator) -> bool
    ensures { result ≡ strange flag receiver }
{
    let rate = receiver.rate;
    flag & !shaping::is_rate(rate)
}

// Whether a seat is open and its record unfit, its rate included.
fn is_unfit(flag: bool, receiver: SoftDemodulator) -> bool
    ensures { result ≡ unfit flag receiver }
{
    flag & receiver.data_carrier_detect().is_err()
}

// Whether any seat's flag and receiver pass a test.
fn any_seat<F: Fn(bool, SoftDemodulator) -> bool>(desk: Desk, test: F) -> bool
    requires { F.IsAlwaysCallable test }
    ensures { TestsSeats (F.post test) desk result }
{
    desk.opened
        .iter()
        .zip(desk.receivers.iter())
        .any(|(flag, receiver)| test(*flag, *receiver))
}

fn line_of(flag: bool, receiver: SoftDemodulator) -> Option<Line>
    ensures { line_paper result ≡ line_of flag receiver }
{
    if !flag {
        return None;
    }
    Some(Line {
        count: receiver.control.sample,
        owed: receiver.control.owed,
    })
}

fn line_at(desk: Desk, at: usize) -> Option<Line>
    requires { at < 8 }
    ensures { line_paper result ≡ line_at desk at }
{
    let receiver = desk.receivers[at];
    let flag = desk.opened[at];
    line_of(flag, receiver)
}

fn lines_of(desk: Desk) -> [Option<Line>; 8]
    ensures { lines_paper result ≡ lines_at desk }
{
    [
        line_at(desk, 0),
        line_at(desk, 1),
        line_at(desk, 2),
        line_at(desk, 3),
        line_at(desk, 4),
        line_at(desk, 5),
        line_at(desk, 6),
        line_at(desk, 7),
    ]
}

fn list_desk(desk: Desk) -> Result<[Option<Line>; 8], Refusal>
    ensures { DeskListSays desk result }
{
    if any_seat(desk, is_strange) {
        return Err(Refusal::WrongRate);
    }
    if any_seat(desk, is_unfit) {
        return Err(Refusal::RecordUnfit);
    }
    Ok(lines_of(desk))
}

pub fn list(desk: &Desk) -> Result<[Option<Line>; 8], Refusal>
    ensures { DeskListSays desk.now result }
{
    list_desk(*desk)
}
