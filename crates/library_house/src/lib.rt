// What the two programs and the link test do with symbols, for programs in other languages: the rule of acceptance, a frame as a line and
// back, and the count of differing bits.
#![tactic(auto)]

ghost use Rattle.std.specs.Prelude.{◌≡◌};
ghost use Rattle.bit_errors.specs.Errors.{paper};
ghost use Rattle.library_house.specs.Exports.{kind_of, errors_code, errors_told, M17AcceptsSays, M17LineSays, M17LineSymbolsSays, M17BitErrorsSays};

use library_codes::refusal_code;
use protocol::{Kind, Refusal};

fn find_kind(number: u32) -> Kind
    ensures { result ≡ kind_of number }
{
    match number {
        1 => Kind::Lsf,
        2 => Kind::Bert,
        3 => Kind::Stream,
        _ => Kind::Packet,
    }
}

// 1 where the window's first eight symbols are those of the kind's burst, else 0. No window is of a kind that there is not.
#[unsafe(no_mangle)]
pub extern "C" fn m17_accepts(kind: u32, symbols: &[f32; 192]) -> u32
    ensures { M17AcceptsSays kind symbols.now result }
{
    let named = (1 <= kind) & (kind <= 4);
    if !named {
        return 0;
    }
    let of_kind = find_kind(kind);
    let first = [
        symbols[0], symbols[1], symbols[2], symbols[3], symbols[4], symbols[5], symbols[6],
        symbols[7],
    ];
    let good = house::accepts(of_kind, first);
    if good {
        return 1;
    }
    0
}

// 96 digits and a line feed, of any symbols.
#[unsafe(no_mangle)]
pub extern "C" fn m17_line(symbols: &[f32; 192], line: &mut [u8; 97])
    ensures { M17LineSays symbols.now line.new }
{
    let values = *symbols;
    let written = house::symbols_line(values);
    *line = written;
}

// 1 and the symbols of a good line; 0 of a bad one, and the symbols are as they were.
#[unsafe(no_mangle)]
pub extern "C" fn m17_line_symbols(line: &[u8; 97], symbols: &mut [f32; 192]) -> u32
    ensures { M17LineSymbolsSays line.now symbols.old result symbols.new }
{
    if let Some(values) = house::line_symbols(*line) {
        *symbols = values;
        return 1;
    }
    0
}

fn code_errors(answer: Result<u32, Refusal>) -> u32
    ensures { result ≡ errors_code (paper answer) }
{
    match answer {
        Err(why) => refusal_code(why),
        Ok(_) => 0,
    }
}

fn tell_errors(answer: Result<u32, Refusal>, told: u64) -> u64
    ensures { result ≡ errors_told (paper answer) told }
{
    answer.map_or(told, |count| count as u64)
}

// 0, and beside it how many bits differ; a refusal's code, and nothing beside it.
#[unsafe(no_mangle)]
pub extern "C" fn m17_bit_errors(sent: &[f32], received: &[f32], told: &mut u64) -> u32
    ensures { M17BitErrorsSays sent.now received.now told.old result told.new }
{
    let answer = bit_errors::bit_errors(sent, received);
    let now = tell_errors(answer, *told);
    *told = now;
    code_errors(answer)
}
