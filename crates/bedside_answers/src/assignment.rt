// The answer of the assignment.
ghost use Rattle.std.specs.Prelude.{◌≡◌};
ghost use Rattle.bedside_answers.specs.Lapjv.{in_c};

use lapjv::{Counts, Refusal};

// Kept: C reads these fields, as include/bedside.h has them.
#[repr(C)]
#[derive(Drop)]
pub struct LapjvAnswer {
    pub refusal: u32,
    pub turns: u64,
    pub scans: u64,
}

impl From<Result<Counts, Refusal>> for LapjvAnswer {
    ghost from_gives = { λ answer r. r ≡ in_c answer };

    #[tactic(auto, unfolding(lapjv::specs::Answers::number_of, lapjv::specs::Answers::turns_of, lapjv::specs::Answers::scans_of))]
    fn from(answer: Result<Counts, Refusal>) -> LapjvAnswer {
        match answer {
            Ok(c) => LapjvAnswer {
                refusal: 0,
                turns: c.turns as u64,
                scans: c.scans as u64,
            },
            Err(why) => LapjvAnswer {
                refusal: u32::from(why),
                turns: 0,
                scans: 0,
            },
        }
    }
}
