// What became of a box, and the track that it was paired with.
ghost use Rattle.std.specs.Prelude.{◌≡◌};
ghost use Rattle.boost_tracker_fate.specs.Fate.{fate_number, fate_id};

// The id is of the track matched or started.
#[derive(Clone, Copy, Debug, PartialEq, Eq)]
// Kept: four fates, three with an id, are no Option or Result.
pub enum Fate {
    Matched(u64),
    Started(u64),
    UnderThreshold,
    Rejected(u64),
}

// 1 matched, 2 started, 3 under the threshold, 4 rejected.
impl From<Fate> for u32 {
    ghost from_gives = { λ fate n. n ≡ fate_number fate };

    fn from(fate: Fate) -> u32 {
        match fate {
            Fate::Matched(_) => 1,
            Fate::Started(_) => 2,
            Fate::UnderThreshold => 3,
            Fate::Rejected(_) => 4,
        }
    }
}

impl Fate {
    // 0 under the threshold.
    pub fn id(self) -> u64
        ensures { result ≡ fate_id self }
    {
        match self {
            Fate::Matched(id) | Fate::Started(id) | Fate::Rejected(id) => id,
            Fate::UnderThreshold => 0,
        }
    }
}

// The track that a box was paired with; all 0 where there is none.
// Kept: `alike` is one more thing that is told of the two, and bedside_why hands out the zeros of a box without a track.
#[derive(Clone, Copy)]
pub struct Partner {
    pub id: u64,
    // box and track have the same label
    pub alike: bool,
    // 0 under unequal labels
    pub iou: f32,
    // areas as computed
    pub intersection: f32,
    pub union: f32,
}

#[derive(Clone, Copy)]
pub struct Explanation {
    pub fate: Fate,
    // as given, after the DLO boost, and after the DUO boost
    pub score: f32,
    pub score_dlo: f32,
    pub score_duo: f32,
    pub partner: Partner,
}

// The same by indices: the track of its pair, and its place in the unmatched list.
#[derive(Clone, Copy, Debug, PartialEq, Eq)]
// Kept: four places in the lists are no Option or Result.
pub enum Lot {
    Under,
    Paired(usize),
    Refused(usize, usize),
    Alone(usize),
}
