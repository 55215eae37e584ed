// Document 02 l): a month's figures. A report is handed in and out by value, one recording after the other, the two rates apart.
#![tactic(auto)]

ghost use Rattle.figures.specs.Answers.{NewSays, AddSays, MergeSays};

use protocol::Refusal;

mod hear;
mod offered;
mod recording;
mod sums;

// The figures of one rate. In `totals`, by kind in the order LSF, BERT, Stream, Packet: places 0 to 3 the offers, 4 to 7 those accepted,
// 8 to 11 those rejected. Places 12 to 22 the offers at ages 1 to 11; place 23 the samples after which, and after any reply, the carrier is held.
#[derive(Clone, Copy)]
pub struct Figures {
    pub totals: [u64; 24],
    pub smallest: Option<f32>,
    pub largest: Option<f32>,
}

#[derive(Clone, Copy)]
pub struct Report {
    pub at_48: Figures,
    pub at_24: Figures,
}

#[derive(Clone, Copy)]
pub struct AfterAdd {
    pub answer: Result<(), Refusal>,
    pub report: Report,
}

impl Report {
    // "An empty run gives zeros and no gains."
    pub fn new() -> Report
        ensures { NewSays result }
    {
        let none = sums::no_figures();
        Report {
            at_48: none,
            at_24: none,
        }
    }

    // A recording, with a fresh receiver. A refused call leaves the report as it was.
    #[tactic(auto, using(crate::proofs::AddLaws::adding))]
    pub fn add(self, rate: u32, recording: &[i16]) -> AfterAdd
        ensures { AddSays self rate recording.now result }
    {
        if !shaping::is_rate(rate) {
            return AfterAdd {
                answer: Err(Refusal::WrongRate),
                report: self,
            };
        }
        if !sums::is_report_fit(self) {
            return AfterAdd {
                answer: Err(Refusal::RecordUnfit),
                report: self,
            };
        }
        if 9223372036854775808 < recording.len() {
            return AfterAdd {
                answer: Err(Refusal::CountAtItsEnd),
                report: self,
            };
        }
        numbers::all_sixteen(recording);
        let heard = recording::count_recording(rate, recording);
        let none = sums::no_figures();
        if shaping::samples_in(rate) == 10 {
            return sums::join(
                self,
                Report {
                    at_48: heard,
                    at_24: none,
                },
            );
        }
        sums::join(
            self,
            Report {
                at_48: none,
                at_24: heard,
            },
        )
    }

    // Two reports in one, so that the recordings of a month can be gone through apart.
    pub fn merge(self, other: Report) -> AfterAdd
        ensures { MergeSays self other result }
    {
        if !(sums::is_report_fit(self) & sums::is_report_fit(other)) {
            return AfterAdd {
                answer: Err(Refusal::RecordUnfit),
                report: self,
            };
        }
        sums::join(self, other)
    }
}
