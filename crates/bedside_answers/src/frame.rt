// The answer of a frame.
ghost use Rattle.std.specs.Prelude.{◌≡◌};
ghost use Rattle.bedside_answers.specs.Frame.{updated_in_c};

use boost_tracker::{State, UpdateAnswer};

// Kept: C reads these fields, as include/bedside.h has them.
#[repr(C)]
#[derive(Drop)]
pub struct Updated {
    pub refusal: u32,
    pub index: u64,
    pub state: State,
    pub emitted: u64,
    pub turns: u64,
    pub scans: u64,
}

impl From<UpdateAnswer> for Updated {
    ghost from_gives = { λ answer r. r ≡ updated_in_c answer };

    fn from(answer: UpdateAnswer) -> Updated {
        let verdict = answer.verdict;
        Updated {
            refusal: verdict.map_or_else(u32::from, |()| 0),
            index: verdict.map_or_else(|why| why.index(), |()| 0),
            state: answer.state,
            emitted: answer.emitted as u64,
            turns: answer.turns as u64,
            scans: answer.scans as u64,
        }
    }
}
