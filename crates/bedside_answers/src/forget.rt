// The answer of dropping tracks.
ghost use Rattle.std.specs.Prelude.{◌≡◌};
ghost use Rattle.bedside_answers.specs.Forget.{forgotten_in_c};

use boost_tracker_forget::Forgotten;
use boost_tracker_verdict::State;

// Kept: C reads these fields, as include/bedside.h has them.
#[repr(C)]
#[derive(Drop)]
pub struct ForgetAnswer {
    pub refusal: u32,
    pub state: State,
}

impl From<Forgotten> for ForgetAnswer {
    ghost from_gives = { λ answer r. r ≡ forgotten_in_c answer };

    fn from(answer: Forgotten) -> ForgetAnswer {
        ForgetAnswer {
            refusal: answer.verdict.map_or_else(u32::from, |()| 0),
            state: answer.state,
        }
    }
}
