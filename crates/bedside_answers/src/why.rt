// What is told of a box.
ghost use Rattle.std.specs.Prelude.{◌≡◌};
ghost use Rattle.bedside_answers.specs.Why.{unexplained, explained_in_c, why_in_c};

use boost_tracker_why::{Explanation, WhyRefusal};

// Kept: C reads these fields, as include/bedside.h has them.
#[repr(C)]
#[derive(Drop)]
pub struct Explained {
    pub refusal: u32,
    pub index: u64,
    pub fate: u32,
    pub id: u64,
    pub score: f32,
    pub score_dlo: f32,
    pub score_duo: f32,
    pub paired_id: u64,
    pub iou: f32,
    pub intersection: f32,
    pub union_area: f32,
}

fn unexplained(refusal: u32, index: u64) -> Explained
    ensures { result ≡ unexplained refusal index }
{
    Explained {
        refusal,
        index,
        fate: 0,
        id: 0,
        score: 0.0,
        score_dlo: 0.0,
        score_duo: 0.0,
        paired_id: 0,
        iou: 0.0,
        intersection: 0.0,
        union_area: 0.0,
    }
}

impl From<Explanation> for Explained {
    ghost from_gives = { λ e r. r ≡ explained_in_c e };

    fn from(e: Explanation) -> Explained {
        let fate = e.fate;
        let partner = e.partner;
        Explained {
            refusal: 0,
            index: 0,
            fate: u32::from(fate),
            id: fate.id(),
            score: e.score,
            score_dlo: e.score_dlo,
            score_duo: e.score_duo,
            paired_id: partner.id,
            iou: partner.iou,
            intersection: partner.intersection,
            union_area: partner.union,
        }
    }
}

impl From<Result<Explanation, WhyRefusal>> for Explained {
    ghost from_gives = { λ answer r. r ≡ why_in_c answer };

    fn from(answer: Result<Explanation, WhyRefusal>) -> Explained {
        match answer {
            Ok(e) => Explained::from(e),
            Err(why) => unexplained(u32::from(why), why.index()),
        }
    }
}
