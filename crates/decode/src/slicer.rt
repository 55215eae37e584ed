// The slicer: a symbol's two bits.
ghost use Rattle.decode.specs.Slicer.{DecodeSampleSays};

const PLUS_THREE: [u8; 2] = [0, 1];

const PLUS_ONE: [u8; 2] = [0, 0];

const MINUS_ONE: [u8; 2] = [1, 0];

const MINUS_THREE: [u8; 2] = [1, 1];

// What is not a number is above none of the limits.
pub fn decode_sample(sample: f32) -> [u8; 2]
    ensures { DecodeSampleSays sample result }
{
    if sample > 0.667 {
        PLUS_THREE
    } else if sample > 0.0 {
        PLUS_ONE
    } else if sample > -0.667 {
        MINUS_ONE
    } else {
        MINUS_THREE
    }
}
