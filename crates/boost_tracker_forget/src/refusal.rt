// Why a drop is turned down: 11 and 10 of the frame, then document 02's 101 and 102; the first reason that applies, in this order.
ghost use Rattle.std.specs.Prelude.{◌≡◌};
ghost use Rattle.boost_tracker_forget.specs.Forget as Spec;

#[derive(Clone, Copy, Debug, PartialEq, Eq)]
pub enum ForgetRefusal {
    // 11
    TableNotSound,
    // 10: a label other than 1 to 3
    TrackNotLabelled,
    // 101
    IdTwice,
    // 102
    IdNotHeld,
}

impl From<ForgetRefusal> for u32 {
    ghost from_gives = { λ why n. n ≡ Spec.number why };

    fn from(why: ForgetRefusal) -> u32 {
        match why {
            ForgetRefusal::TableNotSound => 11,
            ForgetRefusal::TrackNotLabelled => 10,
            ForgetRefusal::IdTwice => 101,
            ForgetRefusal::IdNotHeld => 102,
        }
    }
}
