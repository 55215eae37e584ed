// A sample as two bytes, the low one first, in two's complement.
ghost use Rattle.house.specs.Samples.{I16OfBytesSays, BytesOfI16Says};

pub fn i16_of_bytes(low: u8, high: u8) -> i16
    ensures { I16OfBytesSays low high result }
{
    u16::from_le_bytes([low, high]).cast_signed()
}

pub fn bytes_of_i16(x: i16) -> [u8; 2]
    ensures { BytesOfI16Says x result }
{
    x.cast_unsigned().to_le_bytes()
}
