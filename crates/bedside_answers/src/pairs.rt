// The answers of the pairing.
ghost use Rattle.std.specs.Prelude.{◌≡◌};
ghost use Rattle.refusals.specs.Refusal.{verdict_number};
ghost use Rattle.bedside_answers.specs.Pairs.{matched_in_c, assignment_in_c};

use assoc::{AssignmentCounts, MatchCounts, Refusal};

// Kept: C reads these fields, as include/bedside.h has them.
#[repr(C)]
#[derive(Drop)]
pub struct Matched {
    pub refusal: u32,
    pub pairs: u64,
    pub turns: u64,
    pub scans: u64,
}

// Kept: C reads these fields, as include/bedside.h has them.
#[repr(C)]
#[derive(Drop)]
pub struct Assignment {
    pub refusal: u32,
    pub pairs: u64,
    pub unmatched_detections: u64,
    pub unmatched_tracks: u64,
    pub turns: u64,
    pub scans: u64,
}

// The number of a verdict, 0 where the call is accepted.
pub fn number(verdict: Result<(), Refusal>) -> u32
    ensures { result ≡ verdict_number verdict }
{
    verdict.map_or_else(u32::from, |()| 0)
}

impl From<Result<MatchCounts, Refusal>> for Matched {
    ghost from_gives = { λ answer r. r ≡ matched_in_c answer };

    fn from(answer: Result<MatchCounts, Refusal>) -> Matched {
        match answer {
            Ok(c) => Matched {
                refusal: 0,
                pairs: c.pairs as u64,
                turns: c.turns as u64,
                scans: c.scans as u64,
            },
            Err(why) => Matched {
                refusal: u32::from(why),
                pairs: 0,
                turns: 0,
                scans: 0,
            },
        }
    }
}

impl From<Result<AssignmentCounts, Refusal>> for Assignment {
    ghost from_gives = { λ answer r. r ≡ assignment_in_c answer };

    fn from(answer: Result<AssignmentCounts, Refusal>) -> Assignment {
        match answer {
            Ok(c) => Assignment {
                refusal: 0,
                pairs: c.pairs as u64,
                unmatched_detections: c.detections as u64,
                unmatched_tracks: c.tracks as u64,
                turns: c.turns as u64,
                scans: c.scans as u64,
            },
            Err(why) => Assignment {
                refusal: u32::from(why),
                pairs: 0,
                unmatched_detections: 0,
                unmatched_tracks: 0,
                turns: 0,
                scans: 0,
            },
        }
    }
}
