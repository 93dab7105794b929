// What is told of one box of a frame by the scores after the boosts, and the time since update of a predicted track.
ghost use Rattle.std.specs.Prelude.{◌≡◌, slice_index_or};
ghost use Rattle.floats.specs.Single.{plus_zero};
ghost use Rattle.strack.specs.Strack.{predict};
ghost use Rattle.boost_tracker_seen.specs.Seen.{remain_before, seen_with};

use strack::strack::KalmanBoxTracker;

// What the steps say of one box that the caller asks about.
#[derive(Clone, Copy)]
pub struct Seen {
    // its score after the DLO boost, and after the DUO boost
    pub once: f32,
    pub twice: f32,
    // how many boxes before it are retained
    pub before: usize,
}

// Score i, or 0 where there is none.
pub fn score_at(scores: &[f32], i: usize) -> f32
    ensures { result ≡ slice_index_or scores.now i plus_zero }
{
    scores.get(i).copied().unwrap_or(0.0)
}

// How many of the first i boxes are retained.
fn retained_before(thresh: f32, scores: &[f32], i: usize) -> usize
    ensures { result ≡ remain_before thresh scores.now i }
{
    scores
        .iter()
        .take(i)
        .filter(|&&score| score >= thresh)
        .count()
}

// Of the box that is asked about, by the scores after both boosts.
pub fn seen_in(thresh: f32, once: f32, scores: &[f32], seen: usize) -> Seen
    ensures { result ≡ seen_with thresh once scores.now seen }
{
    let twice = score_at(scores, seen);
    let before = retained_before(thresh, scores, seen);
    Seen {
        once,
        twice,
        before,
    }
}

// A prediction adds one to the time since update.
pub fn since_predicted(t: KalmanBoxTracker) -> u64
    ensures { result ≡ (predict t).since }
{
    t.since.wrapping_add(1)
}
