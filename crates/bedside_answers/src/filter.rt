// The answer of a pair's correction.
ghost use Rattle.std.specs.Prelude.{◌≡◌};
ghost use Rattle.bedside_answers.specs.Filter as C;
ghost use Rattle.strack_filter.specs.KalmanFilter.{pair_answer};

use strack_filter::kalman_filter::Pair;

// Kept: C reads these fields, as include/bedside.h has them.
#[repr(C)]
#[derive(Drop)]
pub struct Corrected {
    pub refusal: u32,
    pub pair: Pair,
}

// A refused pair is handed back as it was given.
impl From<Result<Pair, Pair>> for Corrected {
    ghost from_gives = { λ answer r. r ≡ C.in_c (pair_answer answer) };

    fn from(answer: Result<Pair, Pair>) -> Corrected {
        match answer {
            Ok(pair) => Corrected { refusal: 0, pair },
            Err(pair) => Corrected { refusal: 12, pair },
        }
    }
}
