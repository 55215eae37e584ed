// What the M17 specification fixes for both ends of a channel: the four kinds of frame, the six sync bursts with their signs, and the refusals of documents 01 and 02 with their numbers.
#![tactic(auto)]

ghost use Rattle.protocol.specs.Bursts.{TargetSays};
ghost use Rattle.protocol.specs.Refusals.{NumberSays, PlaceSays};

// The kinds of frame, in the order in which the search tries them.
#[derive(Clone, Copy, PartialEq, Eq)]
pub enum Kind {
    Lsf,
    Bert,
    Stream,
    Packet,
}

// A burst begins a frame of its kind, or is one of the two that no frame follows.
#[derive(Clone, Copy)]
pub enum SyncBurst {
    Frame(Kind),
    Preamble,
    EndOfTransmission,
}

// The six bursts, eight signs each: LSF, BERT, Stream, Packet, preamble, end of transmission.
const BURSTS: [[i8; 8]; 6] = [
    [1, 1, 1, 1, -1, -1, 1, -1],
    [-1, 1, -1, -1, 1, 1, 1, 1],
    [-1, -1, -1, -1, 1, 1, -1, 1],
    [1, -1, 1, 1, -1, -1, -1, -1],
    [1, -1, 1, -1, 1, -1, 1, -1],
    [1, 1, 1, 1, 1, 1, -1, 1],
];

impl SyncBurst {
    // The signs that a burst's eight symbols have.
    pub fn target(self) -> [i8; 8]
        ensures { TargetSays self result }
    {
        match self {
            SyncBurst::Frame(kind) => match kind {
                Kind::Lsf => BURSTS[0],
                Kind::Bert => BURSTS[1],
                Kind::Stream => BURSTS[2],
                Kind::Packet => BURSTS[3],
            },
            SyncBurst::Preamble => BURSTS[4],
            SyncBurst::EndOfTransmission => BURSTS[5],
        }
    }
}

// Why a call is refused, with the place of the symbol that is wrong or the number of the bad line. Nothing else is given then, and record
// and buffers are as they were.
#[derive(Clone, Copy)]
pub enum Refusal {
    RecordUnfit,
    ReplyOwed,
    NoReplyOwed,
    RoomTooSmall,
    CountAtItsEnd,
    WrongCount,
    SymbolNotANumber(usize),
    SymbolInfinite(usize),
    SymbolAboveOne(usize),
    SymbolBelowMinusOne(usize),
    CountTooLarge,
    CapacityBelowFill,
    ValueOutside,
    WrongBurst,
    WrongRate,
    RecordingTooLong,
    ListRoomTooSmall,
    NoSuchSample,
    TotalTooLarge,
    BadLine(usize),
    NoSuchSeat,
    SeatClosed,
    SeatOpen,
}

// What a refusal tells beside its number: nothing, a symbol's place, counted from 0, or a line's number, counted from 1.
// An Option of the last two would be matched twice where this is matched once.
#[derive(Clone, Copy, PartialEq, Eq)]
pub enum Place {
    Nothing,
    Symbol(usize),
    Line(usize),
}

impl Refusal {
    // The refusal's number in document 01 or 02, by which `NumberSays` and the exports for C tell it.
    pub fn number(self) -> u32
        ensures { NumberSays self result }
    {
        match self {
            Refusal::RecordUnfit => 1,
            Refusal::ReplyOwed => 2,
            Refusal::NoReplyOwed => 3,
            Refusal::RoomTooSmall => 4,
            Refusal::CountAtItsEnd => 5,
            Refusal::WrongCount => 6,
            Refusal::SymbolNotANumber(_) => 71,
            Refusal::SymbolInfinite(_) => 72,
            Refusal::SymbolAboveOne(_) => 73,
            Refusal::SymbolBelowMinusOne(_) => 74,
            Refusal::CountTooLarge => 8,
            Refusal::CapacityBelowFill => 9,
            Refusal::ValueOutside => 10,
            Refusal::WrongBurst => 11,
            Refusal::WrongRate => 15,
            Refusal::RecordingTooLong => 12,
            Refusal::ListRoomTooSmall => 13,
            Refusal::NoSuchSample => 14,
            Refusal::TotalTooLarge => 16,
            Refusal::BadLine(_) => 17,
            Refusal::NoSuchSeat => 18,
            Refusal::SeatClosed => 19,
            Refusal::SeatOpen => 20,
        }
    }

    pub fn place(self) -> Place
        ensures { PlaceSays self result }
    {
        match self {
            Refusal::SymbolNotANumber(place) => Place::Symbol(place),
            Refusal::SymbolInfinite(place) => Place::Symbol(place),
            Refusal::SymbolAboveOne(place) => Place::Symbol(place),
            Refusal::SymbolBelowMinusOne(place) => Place::Symbol(place),
            Refusal::BadLine(line) => Place::Line(line),
            _ => Place::Nothing,
        }
    }
}
