// Writes the lists `taps` of both rates, `bursts` and `frames` from the port's tables, and replays the list `filters` of both rates.
#![tactic(auto)]

use protocol::{Kind, SyncBurst};
use std::io::{self, BufWriter, Write};

mod filters;

fn put_tap(out: &mut impl Write, i: usize, tap: f32) -> io::Result<()> {
    write!(out, "{}", i as u64)?;
    cases_text::put_float(out, tap)?;
    cases_text::end_line(out)
}

fn put_taps(out: &mut impl Write, taps: &[f32]) -> io::Result<()> {
    for (i, tap) in taps.iter().enumerate() {
        put_tap(out, i, *tap)?;
    }
    Ok(())
}

fn put_burst(out: &mut impl Write, name: &[u8], burst: SyncBurst) -> io::Result<()> {
    out.write_all(name)?;
    for sign in &burst.target() {
        cases_text::put_signed(out, *sign as i16)?;
    }
    cases_text::end_line(out)
}

fn put_frame(out: &mut impl Write, name: &[u8], symbols: [f32; 192]) -> io::Result<()> {
    out.write_all(name)?;
    cases_text::put_floats(out, &symbols)?;
    cases_text::end_line(out)
}

fn main(rt: HostRuntime) -> io::Result<()> {
    let mut out = BufWriter::new(rt.alloc(), io::writer(&rt))?;
    let taps = shaping::rrc_48k();
    let half = shaping::rrc_24k();
    put_taps(&mut out, &taps)?;
    put_taps(&mut out, &half)?;
    put_burst(&mut out, b"preamble", SyncBurst::Preamble)?;
    put_burst(&mut out, b"end", SyncBurst::EndOfTransmission)?;
    put_burst(&mut out, b"lsf", SyncBurst::Frame(Kind::Lsf))?;
    put_burst(&mut out, b"bert", SyncBurst::Frame(Kind::Bert))?;
    put_burst(&mut out, b"stream", SyncBurst::Frame(Kind::Stream))?;
    put_burst(&mut out, b"packet", SyncBurst::Frame(Kind::Packet))?;
    put_frame(&mut out, b"preamble", encode::generate_preamble())?;
    put_frame(&mut out, b"bert-preamble", encode::generate_bert_preamble())?;
    put_frame(&mut out, b"end", encode::generate_end_of_transmission())?;
    let text = cases_text::read_text(&rt, rt.alloc(), 65_536)?;
    filters::replay(&mut out, &text)?;
    out.flush()
}
