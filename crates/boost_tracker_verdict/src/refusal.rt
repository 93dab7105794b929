// Why a frame is turned down: document 01's 11 to 19 and 02's 10 and 20; the first reason that applies, in this order. Each has its number beside it.
ghost use Rattle.std.specs.Prelude.{◌≡◌};
ghost use Rattle.boost_tracker_verdict.specs.Verdict as Spec;

#[derive(Clone, Copy, Debug, PartialEq, Eq)]
pub enum Refusal {
    // 11
    TableNotSound,
    // 10: a label other than 1 to 3
    TrackNotLabelled,
    // 12: a float of a held track is not finite, or a predicted A + R is not positive and finite
    TrackNotWorkable,
    // 13
    SettingNotFinite,
    // 14: more than 255
    TooManyBoxes,
    // 15: held tracks plus boxes above the capacity
    TableFull,
    // 16: its index
    BadBox(usize),
    // 20: a label other than 1 to 3, its index
    BoxNotLabelled(usize),
    // 17
    TooManyFrames,
    // 18: output for fewer than held plus boxes records
    OutputShort,
    // 19
    WorkShort,
}

impl From<Refusal> for u32 {
    ghost from_gives = { λ why n. n ≡ Spec.number why };

    fn from(why: Refusal) -> u32 {
        match why {
            Refusal::TableNotSound => 11,
            Refusal::TrackNotLabelled => 10,
            Refusal::TrackNotWorkable => 12,
            Refusal::SettingNotFinite => 13,
            Refusal::TooManyBoxes => 14,
            Refusal::TableFull => 15,
            Refusal::BadBox(_) => 16,
            Refusal::BoxNotLabelled(_) => 20,
            Refusal::TooManyFrames => 17,
            Refusal::OutputShort => 18,
            Refusal::WorkShort => 19,
        }
    }
}

impl Refusal {
    // Of a bad box or one without a label; 0 for every other refusal.
    pub fn index(self) -> u64
        ensures { result ≡ Spec.index self }
    {
        match self {
            Refusal::TableNotSound => 0,
            Refusal::TrackNotLabelled => 0,
            Refusal::TrackNotWorkable => 0,
            Refusal::SettingNotFinite => 0,
            Refusal::TooManyBoxes => 0,
            Refusal::TableFull => 0,
            Refusal::BadBox(i) => i as u64,
            Refusal::BoxNotLabelled(i) => i as u64,
            Refusal::TooManyFrames => 0,
            Refusal::OutputShort => 0,
            Refusal::WorkShort => 0,
        }
    }
}
