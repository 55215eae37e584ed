// The link test's count: how many bits of two payloads differ once both are sliced.
#![tactic(auto)]

ghost use Rattle.std.specs.Prelude.{◌≡◌, ◌≤◌, length};
ghost use Rattle.decode.specs.Slicer.{sliced};
ghost use Rattle.bit_errors.specs.Errors.{differ, differences, bits_of, BitErrorsSays};

use protocol::Refusal;

// The symbols of a payload: a frame's, without its burst.
pub const PAYLOAD: usize = 184;

fn differs(a: u8, b: u8) -> u32
    ensures { (result ≡ differ a b) × (result ≤ 1) }
{
    u32::from(a != b)
}

fn differing_bits(a: f32, b: f32) -> u32
    ensures { (result ≡ differences (sliced a) (sliced b)) × (result ≤ 2) }
{
    let x = decode::decode_sample(a);
    let y = decode::decode_sample(b);
    let first = differs(x[0], y[0]);
    let second = differs(x[1], y[1]);
    first + second
}

fn counted(sent: &[f32], received: &[f32]) -> u32
    requires { (length sent.now ≡ 184) × (length received.now ≡ 184) }
    ensures { result ≡ differences (bits_of sent.now) (bits_of received.now) }
{
    let mut count = 0;
    for (a, b) in sent.iter().zip(received) {
        count += differing_bits(*a, *b);
    }
    count
}

pub fn bit_errors(sent: &[f32], received: &[f32]) -> Result<u32, Refusal>
    ensures { BitErrorsSays sent.now received.now result }
{
    if sent.len() != PAYLOAD || received.len() != PAYLOAD {
        return Err(Refusal::WrongCount);
    }
    Ok(counted(sent, received))
}
