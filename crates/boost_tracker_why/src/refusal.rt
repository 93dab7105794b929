// Why nothing is told of a box.
ghost use Rattle.std.specs.Prelude.{◌≡◌};
ghost use Rattle.boost_tracker_why.specs.declared.refusal.WhyRefusal.TheVariants.{Frame};
ghost use Rattle.boost_tracker_why.specs.Answers.{refusal_number};

use boost_tracker_verdict::Refusal;

#[derive(Clone, Copy, Debug, PartialEq, Eq)]
pub enum WhyRefusal {
    // why the frame would be turned down
    Frame(Refusal),
    // 81: the index is not below the number of boxes
    NoBox,
}

impl From<Refusal> for WhyRefusal {
    ghost from_gives = { λ why r. r ≡ Frame why };

    fn from(why: Refusal) -> WhyRefusal {
        WhyRefusal::Frame(why)
    }
}

impl From<WhyRefusal> for u32 {
    ghost from_gives = { λ why n. n ≡ (refusal_number why).0 };

    fn from(why: WhyRefusal) -> u32 {
        match why {
            WhyRefusal::Frame(why) => why.into(),
            WhyRefusal::NoBox => 81,
        }
    }
}

impl WhyRefusal {
    // With 16 and 20 the index of the box.
    pub fn index(self) -> u64
        ensures { result ≡ (refusal_number self).1 }
    {
        match self {
            WhyRefusal::Frame(why) => why.index(),
            WhyRefusal::NoBox => 0,
        }
    }
}
