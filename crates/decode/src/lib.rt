// From symbols to bits, and from eight filtered values to a burst: the slicer and the correlator of the Rust's decode.rs.
#![tactic(auto)]

mod correlator;
mod slicer;

pub use correlator::{
    SYNC_MIN_GAIN, compare, in_range, spread_of, sync_burst_correlation, unsign_zeros,
};
pub use slicer::decode_sample;

#[derive(Clone, Copy)]
pub struct Correlation {
    pub diff: f32,
    pub gain: f32,
    pub shift: f32,
}

// What the six bursts share of eight values.
#[derive(Clone, Copy)]
pub struct Spread {
    pub gain: f32,
    pub shift: f32,
}
