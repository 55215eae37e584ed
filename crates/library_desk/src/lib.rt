// The exercise desk for Rust and for C, over memory that the caller lends: for each of the eight seats a window, a ring, 14 numbers and 3 levels, as of
// a single receiver, and a flag, 0 for closed and 1 for open. In memory seat k's part is at k times its size. A call changes its own seat's part in
// place, by the receiver's own exports.
#![tactic(auto)]

mod exercise;
mod listing;
mod passage;
mod seat;
