// Whether a lent table is sound, document 01, "Records and limits": no more tracks than places, ids that rise and are few enough, and no counter above the frames.
ghost use Rattle.std.specs.Prelude.{◌≡◌, ◌*◌, leb, length};
ghost use Rattle.laws.specs.Every.{chain};
ghost use Rattle.boost_tracker_table.specs.Table.{places_in, tracks};
ghost use Rattle.boost_tracker_verdict.specs.Sound.{sound};
ghost use Rattle.boost_tracker_verdict.specs.Private.{orderly, id_of};

use boost_tracker_table::{load, placed, places_in};
use strack::strack::KalmanBoxTracker;

// What stands beside the table: the held tracks, the last id given, the frames worked.
#[repr(C)]
#[derive(Clone, Copy, Debug, PartialEq, Eq)]
pub struct State {
    pub count: usize,
    // the Rust's track_id_count
    pub last: u64,
    // the Rust's frame_count
    pub frames: u64,
}

// At most 255 ids a frame. A product that does not fit is above every id.
fn ids_few(last: u64, frames: u64) -> bool
    ensures { result ≡ leb last (255 * frames) }
{
    last <= frames.saturating_mul(255)
}

// The track's id is above `low`, and it and the counters are in range.
fn orderly(state: State, low: u64, t: KalmanBoxTracker) -> bool
    ensures { result ≡ orderly state.last state.frames low t }
{
    let frames = state.frames;
    low < t.id && t.id <= state.last && t.since <= frames && t.streak <= frames && t.age <= frames
}

// Each of the held tracks is, with ids that rise.
fn all_orderly(state: State, floats: &[f32], counters: &[u64]) -> bool
    ensures { result ≡ chain (orderly state.last state.frames) id_of 0 (tracks floats.now counters.now state.count) }
{
    let n = placed(floats.len(), counters.len(), state.count);
    let mut low = 0;
    for i in 0..n {
        let t = load(floats, counters, state.count, i);
        if !orderly(state, low, t) {
            return false;
        }
        low = t.id;
    }
    true
}

// The labels are given by their number.
#[tactic(auto, unfolding(crate::specs::Sound::sound))]
pub fn sound(state: State, floats: &[f32], counters: &[u64], labels: usize) -> bool
    ensures { result ≡ sound (places_in (length floats.now) (length counters.now) labels) state (tracks floats.now counters.now state.count) }
{
    state.count <= places_in(floats.len(), counters.len(), labels)
        && ids_few(state.last, state.frames)
        && all_orderly(state, floats, counters)
}
