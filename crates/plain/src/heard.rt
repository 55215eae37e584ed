// A recording as it is heard: at p samples in a symbol, through the taps of that rate.
ghost use Rattle.plain.specs.Values.{Usable};

use shaping::PerSymbol;

#[derive(Clone, Copy)]
pub(crate) struct Heard<'a> {
    pub(crate) p: PerSymbol,
    pub(crate) table: &'a [f32],
    pub(crate) recording: &'a [i16],
    ghost usable: { Usable p table.now recording.now },
}
