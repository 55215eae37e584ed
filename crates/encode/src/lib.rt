// The frames with fixed symbols, of the Rust's encode.rs and of document 02: what a transmission begins and ends with.
#![tactic(auto)]

ghost use Rattle.std.specs.Prelude.{◌≡◌};
ghost use Rattle.protocol.specs.Bursts.{signs_of};
ghost use Rattle.encode.specs.Frames.{frame_of, repeated_sign, GeneratePreambleSays, GenerateBertPreambleSays, GenerateEndOfTransmissionSays, GenerateEndingSays};

use protocol::SyncBurst;

// A burst's eight signs, twenty-four times over.
fn repeated(burst: SyncBurst) -> [f32; 192]
    ensures { result ≡ frame_of (repeated_sign (signs_of burst)) }
{
    let signs = burst.target();
    let mut out = [0.0f32; 192];
    for (i, symbol) in out.iter_mut().enumerate() {
        *symbol = f32::from(signs[i % 8]);
    }
    out
}

pub fn generate_preamble() -> [f32; 192]
    ensures { GeneratePreambleSays result }
{
    repeated(SyncBurst::Preamble)
}

// What turns a sign.
const TURN: f32 = -1.0;

// The preamble with every sign turned.
pub fn generate_bert_preamble() -> [f32; 192]
    ensures { GenerateBertPreambleSays result }
{
    let mut symbols = generate_preamble();
    for symbol in symbols.iter_mut() {
        *symbol *= TURN;
    }
    symbols
}

pub fn generate_end_of_transmission() -> [f32; 192]
    ensures { GenerateEndOfTransmissionSays result }
{
    repeated(SyncBurst::EndOfTransmission)
}

// Where the zeros after the end of transmission begin.
const FLUSH: usize = 192;

// The end of transmission, and the zeros after it that empty the sender's window.
pub fn generate_ending() -> [f32; 272]
    ensures { GenerateEndingSays result }
{
    let end = generate_end_of_transmission();
    let mut symbols = [0.0f32; 272];
    symbols[..FLUSH].copy_from_slice(&end[..FLUSH]);
    symbols
}
