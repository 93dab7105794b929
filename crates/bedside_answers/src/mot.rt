// The answer of a line of MOTChallenge detection text.
ghost use Rattle.std.specs.Prelude.{◌≡◌};
ghost use Rattle.bedside_answers.specs.Mot.{answered_in_c};

use mot_line::Refusal;

// Kept: C reads these fields, as include/bedside.h has them.
#[repr(C)]
#[derive(Drop)]
pub struct MotAnswer {
    pub refusal: u32,
    pub frame: u32,
}

impl From<Result<u32, Refusal>> for MotAnswer {
    ghost from_gives = { λ answer r. r ≡ answered_in_c answer };

    fn from(answer: Result<u32, Refusal>) -> MotAnswer {
        match answer {
            Ok(frame) => MotAnswer { refusal: 0, frame },
            Err(why) => MotAnswer {
                refusal: u32::from(why),
                frame: 0,
            },
        }
    }
}
