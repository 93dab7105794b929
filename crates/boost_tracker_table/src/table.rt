// Kept: floats, counters and labels stay parameters, since a struct of `&mut` slices needs a clause for each of them wherever it is lent on.
// The operations on the lent table: load, store, predict, correct, append, retire, and zero what lies beyond. Each looks only at the places that the lent slices have.
ghost use Rattle.std.specs.Prelude.{◌≡◌, map, Bool, min, length, get_or, set};
ghost use Rattle.strack.specs.Strack.{predict as predict_track};
ghost use Rattle.boost_tracker_table.specs.Table as Table;
ghost use Rattle.boost_tracker_table.specs.Table.{Track, tracks, pushed, unlisted, Laying, KeptWhere, Retired, Emptied};
ghost use Rattle.boost_tracker_table.specs.Private.{TellsOf};

use crate::ids::listed;
use crate::place::{PLACE_COUNTERS, PLACE_FLOATS, put_track, track_at};
use strack::rect::Xyxy;
use strack::strack::KalmanBoxTracker;

// How many whole places these lengths have.
pub fn capacity(floats: usize, counters: usize) -> usize
    ensures { result ≡ Table.capacity floats counters }
{
    (floats / PLACE_FLOATS)
        .min(counters / PLACE_COUNTERS)
        .min(255)
}

// How many tracks a table of these lengths can hold.
pub fn places_in(floats: usize, counters: usize, labels: usize) -> usize
    ensures { result ≡ Table.places_in floats counters labels }
{
    capacity(floats, counters).min(labels)
}

// How many of the held tracks have a place.
pub fn placed(floats: usize, counters: usize, held: usize) -> usize
    ensures { result ≡ Table.placed floats counters held }
{
    held.min(capacity(floats, counters))
}

// ---- one track

// Track i of those held; past them a blank one.
pub fn load(floats: &[f32], counters: &[u64], held: usize, i: usize) -> KalmanBoxTracker
    ensures { result ≡ get_or (tracks floats.now counters.now held) i Table.blank }
{
    if i < placed(floats.len(), counters.len(), held) {
        track_at(floats, counters, i)
    } else {
        KalmanBoxTracker::default()
    }
}

// Stores over track i of those held; past them nothing.
fn store(floats: &mut [f32], counters: &mut [u64], held: usize, i: usize, t: KalmanBoxTracker)
    ensures { Laying floats.old counters.old floats.new counters.new (set (tracks floats.old counters.old held) i t) }
{
    if i < placed(floats.len(), counters.len(), held) {
        put_track(floats, counters, i, t);
    }
}

// Corrects track i of those held by a box. A refused correction, 12, hands the track back as it was, and so the table stays; in an accepted frame none is refused.
pub fn correct(floats: &mut [f32], counters: &mut [u64], held: usize, i: usize, bbox: Xyxy)
    ensures { Laying floats.old counters.old floats.new counters.new (Table.corrected (tracks floats.old counters.old held) i bbox) }
{
    if let Ok(t) = load(floats, counters, held, i).correct(bbox) {
        store(floats, counters, held, i, t);
    }
}

// Stores a track behind those held, where there is a place.
pub fn append(floats: &mut [f32], counters: &mut [u64], held: usize, t: KalmanBoxTracker)
    ensures { Laying floats.old counters.old floats.new counters.new (pushed (Table.capacity (length floats.old) (length counters.old)) (tracks floats.old counters.old held) t) }
{
    if held < capacity(floats.len(), counters.len()) {
        put_track(floats, counters, held, t);
    }
}

// ---- every track

// Predicts each of the held tracks in its place.
pub fn predict_all(floats: &mut [f32], counters: &mut [u64], held: usize)
    ensures { Laying floats.old counters.old floats.new counters.new (map predict_track (tracks floats.old counters.old held)) }
{
    let n = placed(floats.len(), counters.len(), held);
    for i in 0..n {
        let t = track_at(floats, counters, i);
        put_track(floats, counters, i, t.predict());
    }
}

// Keeps the held tracks for which `stays` is true, in order. How many there are.
fn keep_tracks<F: Fn(KalmanBoxTracker) -> bool>(
    floats: &mut [f32],
    counters: &mut [u64],
    held: usize,
    stays: F,
) -> usize
    requires { F.IsAlwaysCallable stays }
    ensures { (p : Track → Bool) → TellsOf (F.post stays) p → KeptWhere p floats.old counters.old held floats.new counters.new result }
{
    let n = placed(floats.len(), counters.len(), held);
    let mut w = 0;
    for i in 0..n {
        let t = track_at(floats, counters, i);
        if stays(t) {
            put_track(floats, counters, w, t);
            w += 1;
        }
    }
    w
}

// Keeps the held tracks whose time since update is at most `oldest`, in order: the Rust's `retain`. How many there are.
pub fn retire(floats: &mut [f32], counters: &mut [u64], held: usize, oldest: u64) -> usize
    ensures { Retired floats.old counters.old held oldest floats.new counters.new result }
{
    keep_tracks(floats, counters, held, |t| t.since <= oldest)
}

// Keeps the held tracks that the list does not name, in order. How many there are.
pub fn drop_tracks(floats: &mut [f32], counters: &mut [u64], held: usize, ids: &[u64]) -> usize
    ensures { KeptWhere (unlisted ids.now) floats.old counters.old held floats.new counters.new result }
{
    keep_tracks(floats, counters, held, |t| !listed(ids, t.id))
}

// ---- places beyond the held tracks

// Zeros every place beyond the held tracks, up to the table's places; cells past them are not written.
pub fn clear_beyond(floats: &mut [f32], counters: &mut [u64], held: usize, places: usize)
    ensures { Emptied floats.old counters.old (Table.placed (length floats.old) (length counters.old) places) (tracks floats.old counters.old (min held places)) floats.new counters.new }
{
    let end = placed(floats.len(), counters.len(), places);
    let first = held.min(end);
    floats[first * PLACE_FLOATS..end * PLACE_FLOATS].fill(0.0);
    counters[first * PLACE_COUNTERS..end * PLACE_COUNTERS].fill(0);
}
