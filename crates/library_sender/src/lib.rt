// The sender's calls for programs in other languages. The caller lends the sender's memory as plain arrays, and any bytes may be in it: what
// is no sender's is refused, and a refused call leaves every lent place. The record is copied in and out, which is little beside a frame.
#![tactic(auto)]

mod answers;
mod frames;
mod layout;
mod output;

pub use frames::{
    m17_sender_end, m17_sender_new, m17_sender_no_frame, m17_sender_preamble, m17_sender_symbols,
};
pub use output::{m17_sender_read, m17_sender_run, m17_sender_update};
