// Which of the symbols given for a frame is wrong, and how; and the burst that heads a BERT frame. What the sender's calls refuse a frame of symbols for, but for the record's own state.
#![tactic(auto)]

ghost use Rattle.std.specs.Prelude.{◌≡◌, length};
ghost use Rattle.given_symbols.specs.Offender.{verdict_paper, judged, judged_below, bert_headed, head_judged, JudgeFrameSays};

use protocol::{Kind, Refusal, SyncBurst};

// The symbols of a frame.
const FRAME: usize = 192;

// What a transmission carries: messages, or the test pattern of a link test.
#[derive(Clone, Copy)]
pub enum Traffic {
    Ordinary,
    Bert,
}

fn judge(place: usize, symbol: f32) -> Result<(), Refusal>
    ensures { verdict_paper result ≡ judged place symbol }
{
    let infinity: f32 = 1.0 / 0.0;
    if symbol != symbol {
        Err(Refusal::SymbolNotANumber(place))
    } else if (symbol == infinity) | (symbol == -infinity) {
        Err(Refusal::SymbolInfinite(place))
    } else if 1.0 < symbol {
        Err(Refusal::SymbolAboveOne(place))
    } else if symbol < -1.0 {
        Err(Refusal::SymbolBelowMinusOne(place))
    } else {
        Ok(())
    }
}

fn first_offender(symbols: &[f32]) -> Result<(), Refusal>
    ensures { verdict_paper result ≡ judged_below (length symbols.now) symbols.now }
{
    let mut found = Ok(());
    for (place, symbol) in symbols.iter().enumerate() {
        found = found.and(judge(place, *symbol));
    }
    found
}

fn has_bert_head(symbols: &[f32]) -> bool
    requires { length symbols.now ≡ 192 }
    ensures { result ≡ bert_headed symbols.now }
{
    let signs = SyncBurst::Frame(Kind::Bert).target();
    symbols
        .iter()
        .zip(&signs)
        .all(|(symbol, sign)| *symbol == *sign as f32)
}

fn judge_head(traffic: Traffic, symbols: &[f32]) -> Result<(), Refusal>
    requires { length symbols.now ≡ 192 }
    ensures { verdict_paper result ≡ head_judged traffic symbols.now }
{
    match traffic {
        Traffic::Ordinary => Ok(()),
        Traffic::Bert => {
            if has_bert_head(symbols) {
                Ok(())
            } else {
                Err(Refusal::WrongBurst)
            }
        }
    }
}

// A wrong count is told first, then a wrong symbol, then a wrong burst.
pub fn judge_frame(traffic: Traffic, symbols: &[f32]) -> Result<(), Refusal>
    ensures { JudgeFrameSays traffic symbols.now result }
{
    if symbols.len() != FRAME {
        return Err(Refusal::WrongCount);
    }
    let offender = first_offender(symbols);
    let head = judge_head(traffic, symbols);
    offender.and(head)
}
